// The names or types of a body by number. The index: for each text, in two bytes, the place of its length byte.
ghost use Rattle.std.specs.Prelude.{◌≡◌, [], ℕ, ◌+◌, ◌≤◌, ◌<◌, length, get_or};
ghost use Rattle.files.specs.Program.{texts_in};
ghost use Rattle.index.specs.Texts.{texts_room, text_count, Texts, TextsIndexed, TextAt};
ghost use Rattle.index.specs.Places.{text_size};

// The bytes of the index of a body: at most 512 texts.
pub const TEXTS: usize = 1024;

// The index of a body's texts, and how many there are. (How many is wanted at the end too, so that it is counted and not enumerated.)
#[tactic(auto, using(crate::proofs::TextIndex::texts_none, crate::proofs::TextIndex::text_filled))]
pub fn fill_texts(body: &[u8], part: &mut [u8]) -> usize
    requires { (Texts body.now) × (texts_room ≤ length part.old) }
    ensures { (result ≡ text_count body.now) × (TextsIndexed body.now part.new) }
{
    let mut at = 0;
    let mut count = 0;
    for text in texts(body) {
        layout::put::<2>(part, count * 2, at as u64);
        at += text.len() + 1;
        count += 1;
    }
    count
}

// The text whose length byte is at a place.
#[tactic(auto, using(crate::proofs::TextIndex::text_read))]
pub fn text_at(body: &[u8], at: usize) -> &[u8]
    requires { at + text_size body.now at ≤ length body.now }
    ensures { TextAt body.now at result.now }
{
    let from = at + 1;
    let to = from + layout::get::<1>(body, at) as usize;
    &body[from..to]
}

// Text k.
#[tactic(auto, using(crate::proofs::TextIndex::text_there))]
pub fn text<'a, 'b>(body: &'a [u8], part: &'b [u8], k: usize) -> &'a [u8]
    requires { (TextsIndexed body.now part.now) × (k < text_count body.now) }
    ensures { result.now ≡ get_or (texts_in body.now) k [] }
{
    let at = layout::get::<2>(part, k * 2) as usize;
    text_at(body, at)
}

// The texts of a body, one after another: those not given yet fill what is left of it.
#[derive(Clone, Copy)]
pub struct TextsOf<'a> {
    rest: &'a [u8],
    ghost filled: { Texts rest.now },
    ghost bytes: { (i : ℕ) → get_or rest.now i 0 < 256 },
}

impl<'a> Iterator for TextsOf<'a> {
    ghost use Rattle.std.specs.Iterator.{YieldsFirstRef, item_count};

    type Item = &'a [u8];

    ghost next_gives = { YieldsFirstRef (λ s. texts_in s.rest.now) };

    ghost remaining = { item_count (λ s. texts_in s.rest.now) };

    #[tactic(auto, using(crate::proofs::TextRest::first_inside, crate::proofs::TextRest::first_text, crate::proofs::TextRest::rest_texts_lem, crate::proofs::TextRest::rest_bytes))]
    fn next(&mut self) -> Option<&'a [u8]> {
        let (size, texts) = self.rest.split_first()?;
        let (text, rest) = texts.split_at(usize::from(*size));
        self.rest = rest;
        Some(text)
    }
}

// The texts of a body, from the first on.
pub fn texts(body: &[u8]) -> TextsOf<'_>
    requires { Texts body.now }
    ensures { texts_in result.rest.now ≡ texts_in body.now }
{
    TextsOf { rest: body }
}
