// Little-endian numbers in byte slices. (A count is of the bytes that are read or written: a slice has more behind them.)
// A u64 has 8 bytes, so each asks for a count up to 8. No type is a count up to 8: an enum of the counts would be turned into the number at each use, in the
// code and in the clauses, and the numbers' own types (u8 to u64) leave out the counts 3, 5, 6 and 7, which a region's bytes and a record's have. Where the
// count is a const parameter, no type bounds it.
#![tactic(auto)]

ghost use Rattle.std.specs.Prelude.{◌≡◌, ◌+◌, ◌*◌, ◌^◌, ◌<◌, ◌≤◌, length};
ghost use Rattle.layout.specs.Number.{number_at, put_number, located};

// The number of so many bytes from `at` on.
pub fn number_at(s: &[u8], at: usize, count: usize) -> u64
    requires width { count ≤ 8 }
    requires inside { at + count ≤ length s.now }
    ensures number { result ≡ number_at s.now at count }
    ensures small { result < 256 ^ count }
{
    let mut bytes = [0; 8];
    bytes[..count].copy_from_slice(&s[at..at + count]);
    u64::from_le_bytes(bytes)
}

// A number into so many bytes from `at` on; what is above them is left out.
pub fn put_number(s: &mut [u8], at: usize, count: usize, v: u64)
    requires width { count ≤ 8 }
    requires inside { at + count ≤ length s.old }
    ensures { s.new ≡ put_number s.old at count v }
{
    let bytes = v.to_le_bytes();
    s[at..at + count].copy_from_slice(&bytes[..count]);
}

// The same of N bytes: one load or store where N is as many as these take.
pub fn get<const N: usize>(s: &[u8], at: usize) -> u64
    requires width { N ≤ 8 }
    requires inside { at + N ≤ length s.now }
    ensures number { result ≡ number_at s.now at N }
    ensures small { result < 256 ^ N }
{
    number_at(s, at, N)
}

pub fn put<const N: usize>(s: &mut [u8], at: usize, v: u64)
    requires width { N ≤ 8 }
    requires inside { at + N ≤ length s.old }
    ensures { s.new ≡ put_number s.old at N v }
{
    put_number(s, at, N, v);
}

// The bytes that N bytes at `at` and the N behind them tell of: where they start, and how many they are.
#[tactic(auto, using(crate::proofs::StoreLaws::located_is))]
pub fn located<const N: usize>(s: &[u8], at: usize) -> &[u8]
    requires width { N ≤ 8 }
    requires told { at + 2 * N ≤ length s.now }
    requires within { number_at s.now at N + number_at s.now (at + N) N ≤ length s.now }
    ensures { result.now ≡ located s.now at N }
{
    let start = get::<N>(s, at) as usize;
    let end = start + get::<N>(s, at + N) as usize;
    &s[start..end]
}
