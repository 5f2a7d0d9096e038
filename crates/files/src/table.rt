// The table that each file starts with: how many bodies it has, and where each of them lies.
ghost use Rattle.std.specs.Prelude.{◌≡◌, ◌<◌};
ghost use Rattle.files.specs.FileTable.{HasBody, body, table_ok};

// The most bytes that a file has.
const LONGEST: usize = 65535;

// Whether f has n bodies, back to back from the table's end to its own. (n is no length: it is how many a file of its sort must have.)
#[tactic(auto, using(crate::proofs::TableLaws::table_long, crate::proofs::TableLaws::table_short, crate::proofs::TableLaws::table_count, crate::proofs::TableLaws::table_start, crate::proofs::TableLaws::table_gap, crate::proofs::TableLaws::table_next, crate::proofs::TableLaws::table_on, crate::proofs::TableLaws::table_ends), unfolding(crate::specs::Items::every))]
pub fn check(f: &[u8], n: usize) -> bool
    requires { n < 65536 }
    ensures { result ≡ table_ok n f.now }
{
    let mut end = n * 4 + 2;
    if LONGEST < f.len() {
        return false;
    }
    if f.len() < end {
        return false;
    }
    if layout::get::<2>(f, 0) as usize != n {
        return false;
    }
    for k in 0..n {
        let start = layout::get::<2>(f, k * 4 + 2) as usize;
        if start != end {
            return false;
        }
        end = start + layout::get::<2>(f, k * 4 + 4) as usize;
    }
    end == f.len()
}

// Body k. Whoever reads a file gets its bodies here.
#[tactic(auto, using(crate::proofs::TableLaws::body_located))]
pub fn body(f: &[u8], k: usize) -> &[u8]
    requires { HasBody f.now k }
    ensures { result.now ≡ body f.now k }
{
    layout::located::<2>(f, k * 4 + 2)
}
