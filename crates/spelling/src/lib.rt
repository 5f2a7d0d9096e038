// The type that a spelling names, in the words of C.
#![tactic(auto)]

ghost use Rattle.std.specs.Prelude.{◌≡◌, List, ℕ};
ghost use Rattle.std.specs.Iterator.{AlwaysYields};
ghost use Rattle.layout.specs.Text.{same};
ghost use Rattle.value.specs.Value.{type};
ghost use Rattle.spelling.specs.Spelling.{pieces, any_is, any_unsigned, any_sign, dropped, is, is_bool, is_short_int, fixed_bits, unsigned_word, alone, two, named, base_type, FoundStar, type_of, pointee_of};

use value::Ty;

// Whether a piece is a word. The word is a slice here, since `==` compares no slice with an array.
// The words below are told apart by this and not by a match on byte strings: where no word fits, a match leaves only the piece's length known, and
// the proof didn't close.
#[tactic(auto, using(layout::proofs::TextLaws::slices_same))]
fn is(w: &[u8], word: &[u8]) -> bool
    ensures { result ≡ same w.now word.now }
{
    w == word
}

// Whether a piece is no word of a base type.
#[tactic(auto, unfolding(crate::specs::Spelling::is, crate::specs::Spelling::dropped))]
pub fn is_dropped(w: &[u8]) -> bool
    ensures { result ≡ dropped w.now }
{
    is(w, b"") || is(w, b"const") || is(w, b"volatile") || is(w, b"unsigned") || is(w, b"signed")
}

// Whether a word is one of the pieces between the spaces.
fn has(s: &[u8], word: &[u8]) -> bool
    ensures { result ≡ any_is word.now (pieces s.now) }
{
    s.split(|c| *c == b' ').any(|w| is(w, word))
}

pub fn has_unsigned(s: &[u8]) -> bool
    ensures { result ≡ any_unsigned (pieces s.now) }
{
    has(s, b"unsigned")
}

fn has_sign(s: &[u8]) -> bool
    ensures { result ≡ any_sign (pieces s.now) }
{
    has(s, b"unsigned") || has(s, b"signed")
}

#[tactic(auto, unfolding(crate::specs::Spelling::is))]
fn is_bool(w: &[u8]) -> bool
    ensures { result ≡ is_bool w.now }
{
    is(w, b"_Bool") || is(w, b"bool")
}

#[tactic(auto, unfolding(crate::specs::Spelling::is))]
fn is_short_int(v: &[u8], w: &[u8]) -> bool
    ensures { result ≡ is_short_int v.now w.now }
{
    is(v, b"short") && is(w, b"int")
}

// The bits of a signed type of a fixed width, by its name.
#[tactic(auto, using(value::proofs::Pick::held, value::proofs::Pick::failed), unfolding(crate::specs::Spelling::is))]
fn fixed_bits(name: &[u8]) -> Option<u32>
    ensures { result ≡ fixed_bits name.now }
{
    if is(name, b"int8_t") {
        Some(8)
    } else if is(name, b"int16_t") {
        Some(16)
    } else if is(name, b"int32_t") {
        Some(32)
    } else if is(name, b"int64_t") || is(name, b"intptr_t") {
        Some(64)
    } else {
        None
    }
}

// A base type of one word: of a size, of a fixed width, with `u` before its name where it has no sign, or any other word.
#[tactic(auto, using(crate::proofs::Fixed::size, crate::proofs::Fixed::signed_size))]
fn type_of_fixed(w: &[u8], unsigned: bool) -> Ty
    ensures { result ≡ unsigned_word unsigned w.now }
{
    if is(w, b"size_t") {
        Ty::U64
    } else if is(w, b"ssize_t") {
        Ty::I64
    } else {
        let behind_u = w.strip_prefix(b"u");
        match fixed_bits(behind_u.unwrap_or(w)) {
            Some(bits) => Ty::new(bits, behind_u.is_none()),
            None => Ty::new(64, !unsigned),
        }
    }
}

// The base type of one word: a keyword of C, or what is left.
#[tactic(auto, using(value::proofs::Pick::held, value::proofs::Pick::failed), unfolding(crate::specs::Spelling::is, crate::specs::Spelling::alone))]
fn type_of_word(w: &[u8], unsigned: bool) -> Ty
    ensures { result ≡ alone unsigned w.now }
{
    if is_bool(w) {
        Ty::BOOL
    } else if is(w, b"char") {
        Ty::new(8, !unsigned)
    } else if is(w, b"short") {
        Ty::new(16, !unsigned)
    } else if is(w, b"int") {
        Ty::new(32, !unsigned)
    } else {
        type_of_fixed(w, unsigned)
    }
}

// The base type of two words.
#[tactic(auto, using(value::proofs::Pick::held, value::proofs::Pick::failed), unfolding(crate::specs::Spelling::two))]
fn type_of_two(v: &[u8], w: &[u8], unsigned: bool) -> Ty
    ensures { result ≡ two unsigned v.now w.now }
{
    if is_short_int(v, w) {
        Ty::new(16, !unsigned)
    } else {
        Ty::new(64, !unsigned)
    }
}

// A base type by its words: none is `int`.
fn named<'a, W: Iterator<Item = &'a [u8]>>(mut words: W, unsigned: bool) -> Ty
    requires { W.can_next words }
    ensures { (ws : List (List ℕ)) → AlwaysYields W.next_gives (λ w. w.now) words ws → result ≡ named unsigned ws }
{
    let Some(v) = words.next() else {
        return Ty::new(32, !unsigned);
    };
    let Some(w) = words.next() else {
        return type_of_word(v, unsigned);
    };
    if words.next().is_some() {
        Ty::new(64, !unsigned)
    } else {
        type_of_two(v, w, unsigned)
    }
}

// The last star, if only spaces follow it.
pub fn last_star(s: &[u8]) -> Option<usize>
    ensures { FoundStar s.now result }
{
    let last = s.iter().rposition(|c| *c != b' ')?;
    if s[last] == b'*' { Some(last) } else { None }
}

// The type by its words, whatever word of sign stands beside a bool.
fn base_type(s: &[u8]) -> Ty
    ensures { result ≡ base_type (pieces s.now) }
{
    let words = s.split(|c| *c == b' ').filter(|w| !is_dropped(w));
    named(words, has_unsigned(s))
}

// The type that a spelling names.
#[tactic(auto, using(crate::proofs::Star::is_starred, crate::proofs::Beside::kept, value::proofs::Pick::pick_true, value::proofs::Pick::pick_false), unfolding(crate::specs::Spelling::type_of))]
pub fn type_of(s: &[u8]) -> Ty
    ensures { result ≡ type_of s.now }
{
    if last_star(s).is_some() {
        return Ty::U64;
    }
    let ty = base_type(s);
    if ty.boolean && has_sign(s) {
        ty.plain()
    } else {
        ty
    }
}

// What a spelling points at, where it is a pointer's.
pub fn points_at(s: &[u8]) -> Option<Ty>
    ensures { result ≡ pointee_of s.now }
{
    let at = last_star(s)?;
    Some(type_of(&s[..at]))
}
