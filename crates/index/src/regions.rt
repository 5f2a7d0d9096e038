// The bytes of a world at an address. The index: for every fourth region, in two bytes, its place.
// A count of its entries stands beside the part: this is a fixed place with room for the most, so that its length does not tell. So does how many bytes are asked
// for: the body has more.
ghost use Rattle.std.specs.Prelude.{◌≡◌, ◌+◌, ◌-◌, ◌≤◌, ◌<◌, length};
ghost use Rattle.std.specs.Iterator.{at_most};
ghost use Rattle.layout.specs.Number.{number_at};
ghost use Rattle.index.specs.Regions.{regions_room, RegionInside, LengthOf, Regions, RegionsIndexed, Stands, Steps, From, Holding, Gathered, ReadFrom, starts_by, end_at};

use files::world::REGION;
use memory::Image;

// The bytes of the index: at most 5,041 regions of at least 13 bytes, so 1,261 entries.
pub const REGIONS: usize = 2522;

// One region in so many is in the index.
const STRIDE: usize = 4;

// The first address of the region at a place.
fn start_of(regions: &[u8], at: usize) -> u64
    requires { RegionInside regions.now at }
    ensures { result ≡ number_at regions.now at 8 }
{
    layout::get::<8>(regions, at)
}

// How many bytes the region at a place has.
fn length_of(regions: &[u8], at: usize) -> u64
    requires { RegionInside regions.now at }
    ensures { LengthOf regions.now at result }
{
    layout::get::<4>(regions, at + 8)
}

// The number of some bytes, at most 8, with one load where they are as many as a load takes.
fn number_at(s: &[u8], at: usize, bytes: usize) -> u64
    requires { (at + bytes ≤ length s.now) × (bytes ≤ 8) }
    ensures { result ≡ number_at s.now at bytes }
{
    match bytes {
        1 => layout::get::<1>(s, at),
        2 => layout::get::<2>(s, at),
        4 => layout::get::<4>(s, at),
        8 => layout::get::<8>(s, at),
        _ => layout::number_at(s, at, bytes),
    }
}

// The places of a body's regions from one on: where the next is only a region's own length says.
#[derive(Drop)]
struct Places<'a> {
    regions: &'a [u8],
    at: usize,
}

impl<'a> Iterator for Places<'a> {
    type Item = usize;

    ghost can_next = { λ s. Stands s.regions.now s.at };

    ghost next_gives = { Steps };

    ghost remaining = { λ s. at_most (length s.regions.now - s.at) };

    #[tactic(auto, using(crate::proofs::RegionIndex::stands_inside, crate::proofs::RegionIndex::stands_on))]
    fn next(&mut self) -> Option<usize> {
        if self.at >= self.regions.len() {
            return None;
        }
        let here = self.at;
        self.at = here + length_of(self.regions, here) as usize + REGION;
        Some(here)
    }
}

// The index of the regions, and how many entries it has. (Counted, as texts are.)
pub fn fill_regions(regions: &[u8], part: &mut [u8]) -> usize
    requires { (Regions regions.now) × (regions_room ≤ length part.old) }
    ensures { RegionsIndexed regions.now part.new result }
{
    let mut count = 0;
    for at in (Places { regions, at: 0 }).step_by(STRIDE) {
        layout::put::<2>(part, count * 2, at as u64);
        count += 1;
    }
    count
}

// The place that an entry of the index tells.
fn place_of(entry: &[u8; 2]) -> usize
    ensures place { result ≡ number_at entry.now 0 2 }
    ensures small { result < 65536 }
{
    layout::get::<2>(entry, 0) as usize
}

// Whether the region of an entry starts by an address. (Each entry's is in the body, but a search tells its test nothing of what it gives it: so the test looks.)
#[tactic(auto, unfolding(crate::specs::Regions::starts_by))]
fn starts_by(regions: &[u8], entry: &[u8; 2], address: u64) -> bool
    ensures { result ≡ starts_by regions.now address entry.now }
{
    let at = place_of(entry);
    at + 8 <= regions.len() && layout::get::<8>(regions, at) <= address
}

// A region before which none has an address: by the index, the last that starts by the address, or the first of all.
fn nearest(regions: &[u8], part: &[u8], count: usize, address: u64) -> usize
    requires { (RegionsIndexed regions.now part.now count) × (1 ≤ count) }
    ensures { From regions.now address result }
{
    let entries = &part.as_chunks::<2>().0[..count];
    let past = entries.partition_point(|entry| starts_by(regions, entry, address));
    place_of(&entries[past.saturating_sub(1)])
}

// More bytes from an address on, those that the region at a place has.
fn gather(regions: &[u8], at: usize, address: u64, size: usize, image: Image) -> Image
    requires regions { (Regions regions.now) × (Holding regions.now (address + image.count) at) }
    requires gathered { (Gathered regions.now address size image) × ((size ≤ 8) × (image.count < 8)) }
    ensures { (Gathered regions.now address size result) × ((result.count ≡ size → ⊥) → address + result.count ≡ end_at regions.now at) }
{
    let start = start_of(regions, at);
    let length = length_of(regions, at);
    let offset = address + image.count as u64 - start;
    let more = (size - image.count).min((length - offset) as usize);
    let number = number_at(regions, at + REGION + offset as usize, more);
    Image {
        count: image.count + more,
        number: image.number + (number << (8 * image.count)),
    }
}

// The unbroken bytes from an address on, at most so many.
#[tactic(auto, using(crate::proofs::RegionRead::read_none, crate::proofs::RegionRead::read_all))]
pub fn read(regions: &[u8], part: &[u8], count: usize, address: u64, size: usize) -> Image
    requires { (RegionsIndexed regions.now part.now count) × (size ≤ 8) }
    ensures { ReadFrom regions.now address size result }
{
    let mut image = Image::default();
    if count == 0 {
        return image;
    }
    let from = nearest(regions, part, count, address);
    for at in (Places { regions, at: from }) {
        let wanted = address + image.count as u64;
        let start = start_of(regions, at);
        if wanted < start {
            return image;
        }
        if wanted - start < length_of(regions, at) {
            image = gather(regions, at, address, size, image);
            if image.count == size {
                return image;
            }
        }
    }
    image
}
