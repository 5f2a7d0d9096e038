// Names and types: texts, each behind its length.
ghost use Rattle.std.specs.Prelude.{◌≡◌, ◌+◌, ◌<◌, ◌≤◌, length, MatchOption, IfSome};
ghost use Rattle.files.specs.Bytes.{part, one_less};
ghost use Rattle.files.specs.Names.{printable, before, text_at, counted};

// The most names, and the most types.
const MOST: usize = 512;

// The most bytes of one, and the highest.
const LONGEST: usize = 64;

const HIGHEST: u8 = 0x7e;

// What tells names from types: the least length, the lowest byte, and whether each comes after the one before it (a rule of its own, with no value beside it).
#[derive(Clone, Copy)]
pub struct Texts {
    pub shortest: usize,
    pub lowest: u8,
    pub ascend: bool,
}

impl Texts {
    pub const NAMES: Texts = Texts {
        shortest: 1,
        lowest: 0x21,
        ascend: true,
    };

    pub const TYPES: Texts = Texts {
        shortest: 0,
        lowest: 0x20,
        ascend: false,
    };
}

// Whether each byte is from lo to hi. All are looked at, so that the loop is compiled to one over many bytes at once: `all`, which ends at the first that is not,
// takes them one by one.
fn printed(s: &[u8], lo: u8, hi: u8) -> bool
    ensures { result ≡ printable lo hi s.now }
{
    let mut ok = true;
    for i in 0..s.len() {
        let x = s[i];
        ok = ok & (lo <= x) & (x <= hi);
    }
    ok
}

// Whether s comes before t: at the first byte that differs, or where s ends and t goes on. (The library's `<` makes an order of each two bytes and asks it: 14
// instructions for 10 at each byte where names are alike, as their beginnings are.)
fn precedes(s: &[u8], t: &[u8]) -> bool
    ensures { result ≡ before s.now t.now }
{
    for i in 0..s.len() {
        if t.len() <= i {
            return false;
        }
        let x = s[i];
        let y = t[i];
        if x < y {
            return true;
        }
        if y < x {
            return false;
        }
    }
    s.len() < t.len()
}

// The text at i, where n came before it and the last one is `prior`. (The place and the number are of the whole body, as the definition that the contract
// names reads it: what is left of the body tells neither.)
#[tactic(auto, unfolding(crate::specs::Names::text_at))]
fn text_at<'a>(b: &'a [u8], texts: Texts, n: usize, prior: &[u8], i: usize) -> Option<&'a [u8]>
    requires { i < length b.now }
    ensures text { MatchOption result (text_at texts b.now n prior.now i ≡ 0) (λ t. (text_at texts b.now n prior.now i ≡ length t.now + 1) × (t.now ≡ part (i + 1) (i + 1 + length t.now) b.now)) }
    ensures within { IfSome result (λ t. i + 1 + length t.now ≤ length b.now) }
{
    let k = usize::from(b[i]);
    if MOST <= n {
        return None;
    }
    if k < texts.shortest {
        return None;
    }
    if LONGEST < k {
        return None;
    }
    let from = i + 1;
    if b.len() - from < k {
        return None;
    }
    let text = &b[from..from + k];
    if !printed(text, texts.lowest, HIGHEST) {
        return None;
    }
    if texts.ascend && !precedes(prior, text) {
        return None;
    }
    Some(text)
}

// How many texts the body has; none where it is refused. Inlined, so that the bounds of a byte are constants. (A loop by
// lengths: where the next text is only a text's own length says.)
#[inline(always)]
#[tactic(auto, unfolding(crate::specs::Names::counted))]
pub fn count(b: &[u8], texts: Texts) -> Option<usize>
    ensures { result ≡ one_less (counted texts b.now) }
{
    let mut i = 0;
    let mut n = 0;
    let mut prior = &b[..0];
    while i < b.len() {
        prior = text_at(b, texts, n, prior, i)?;
        i += prior.len() + 1;
        n += 1;
    }
    Some(n)
}
