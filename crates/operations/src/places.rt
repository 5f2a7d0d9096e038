// Operations at places: among the nodes, and in memory.
ghost use Rattle.std.specs.Prelude.{◌≡◌, is_some, ◌+◌, ◌*◌, ◌/◌, ◌<◌, ◌≤◌, max, length};
ghost use Rattle.files.specs.Nodes.{kind_of, ref_of, value_of};
ghost use Rattle.files.specs.Spells.{next};
ghost use Rattle.definition.specs.Memory.{store_val};
ghost use Rattle.index.specs.Regions.{RegionsIndexed};
ghost use Rattle.stream.specs.Pieces.{question_bytes, read_entry};
ghost use Rattle.workspace.specs.Parts.{workspace_size, tables, regions_part};
ghost use Rattle.workspace.specs.Types.{type_at};
ghost use Rattle.workspace.specs.View.{Fit};
ghost use Rattle.hosting.specs.Stands.{FineFields};
ghost use Rattle.operations.specs.At.{TypeAt};
ghost use Rattle.operations.specs.Registers.{counts_in, how_in, result_in, told_end, unit_in};
ghost use Rattle.operations.specs.Going.{Works};
ghost use Rattle.operations.specs.Asking.{Sends, found_val, LoadsAt};
ghost use Rattle.operations.specs.Steps.{Gives, Targets, base_at, store_through, store_field, Builds, CountsFields};

use crate::questions::send;
use crate::results::{REGIONS, RESULT, STORED, Told, ends, fields, is, wrote};
use crate::siblings::Siblings;
use crate::values::{type_of, unknown};
use files::kinds::Kind;
use files::nodes;
use hosting::Short;
use index::regions;
use memory::{Full, Image};
use stream::Reason;
use value::{Ty, Val};
use workspace::{registers, types};

// A Deref's target: the node that is evaluated, and the type of what it points at.
#[derive(Clone, Copy)]
pub struct Target {
    pub node: usize,
    pub ty: Ty,
}

// The node past n and all under it.
pub fn next(nodes: &[u8], n: usize) -> usize
    requires { n * 20 + 20 ≤ length nodes.now }
    ensures { result ≡ next nodes.now n }
{
    n + nodes::span(nodes, n)
}

// What is evaluated for a pointer at node n: what is under it, if it is a Cast to a pointer.
#[tactic(auto, using(files::proofs::KindLaws::of_kind))]
pub fn target_of(nodes: &[u8], ws: &[u8], n: usize) -> Target
    requires workspace_long { workspace_size ≤ length ws.now }
    requires node_inside { n * 20 + 20 ≤ length nodes.now }
    requires n_bound { kind_of nodes.now n ≡ 8 → ref_of nodes.now n < 512 }
    ensures { Targets nodes.now ws.now n result }
{
    if nodes::is(nodes, n, Kind::Cast) {
        if let Some(ty) = types::pointee(ws, nodes::reference(nodes, n)) {
            return Target { node: n + 1, ty };
        }
    }
    Target {
        node: n,
        ty: Ty::I64,
    }
}

// The pointer of a struct's store without one Cast.
#[tactic(auto, using(files::proofs::KindLaws::of_kind, files::proofs::KindLaws::no_such, crate::proofs::Targeting::at_cast, crate::proofs::Targeting::at_other))]
pub fn base(nodes: &[u8], n: usize) -> usize
    requires { n * 20 + 20 ≤ length nodes.now }
    ensures { result ≡ base_at nodes.now n }
{
    if nodes::is(nodes, n, Kind::Cast) {
        n + 1
    } else {
        n
    }
}

// ---- memory

// How many bytes a load of a width has.
fn bytes_of(bits: u32) -> usize
    requires { bits ≤ 64 }
    ensures { (result ≡ max (bits / 8) 1) × (result ≤ 8) }
{
    (bits as usize / 8).max(1)
}

// `read` is asked, and written with the bytes that it answers.
fn ask_read(ws: &mut [u8], out: &mut [u8], address: u64, size: usize, image: Image)
    requires workspace_long { workspace_size ≤ length ws.old }
    requires count_bound { image.count ≤ 8 }
    ensures { Sends (question_bytes (read_entry address size image.count image.number)) ws.old out.old ws.new out.new }
{
    let Image { count, number } = image;
    send(
        ws,
        out,
        |part, at, on| stream::question_read(
            part,
            at,
            on,
            address,
            size as u64,
            count as u64,
            number,
        ),
    );
}

// What a load found.
#[tactic(auto, using(crate::proofs::Asking::found_known, crate::proofs::Asking::found_unknown))]
fn loaded(ws: &mut [u8], found: Option<u64>, ty: Ty) -> Option<()>
    requires { workspace_size ≤ length ws.old }
    ensures { Gives ws.old (found_val ty found) (is_some result) ws.new }
{
    match found {
        Some(n) => is(ws, Val::known(n, ty)),
        None => unknown(ws, ty),
    }
}

// The bytes of a type's width from an address on: those of the run's own, else of the world's `read`, which is asked in any case.
#[tactic(auto, using(crate::proofs::Asking::sends_room, crate::proofs::Asking::load_asks))]
pub fn load_at(regions: &[u8], ws: &mut [u8], out: &mut [u8], address: u64, ty: Ty) -> Option<()>
    requires fit { Fit ws.old (counts_in ws.old).stored }
    requires regions_indexed { RegionsIndexed regions.now (regions_part (tables ws.old)) (how_in ws.old).regions }
    requires bits_bound { ty.bits ≤ 64 }
    ensures { LoadsAt regions.now address ty ws.old out.old (is_some result) ws.new out.new }
{
    let bytes = bytes_of(ty.bits);
    let stored = registers::word(ws, STORED) as usize;
    let count = registers::word(ws, REGIONS) as usize;
    let part = &ws[workspace::REGIONS..workspace::BLOCKS];
    let image = regions::read(regions, part, count, address, bytes);
    ask_read(ws, out, address, bytes, image);
    let found = workspace::load_number(ws, stored, image, address, bytes);
    loaded(ws, found, ty)
}

// The bytes of a value are stored from an address on.
#[tactic(auto, using(crate::proofs::Working::value_unknown))]
pub fn store_value(ws: &mut [u8], address: u64, v: Val) -> Option<()>
    requires { Fit ws.old (counts_in ws.old).stored }
    ensures { Works (store_val address v) ws.old (unit_in (is_some result) ws.new) ws.new }
{
    if !v.known {
        return ends(ws, Short::Why(Reason::UnknownValue, address));
    }
    let stored = registers::word(ws, STORED) as usize;
    match workspace::store_number(ws, stored, address, v.number, v.bits as usize / 8) {
        Ok(n) => {
            registers::set_word(ws, STORED, n as u64);
            Some(())
        }
        Err(Full) => ends(ws, Short::Full),
    }
}

// A value of a type is stored through the pointer that is the last result, which node n gave.
#[tactic(auto, using(crate::proofs::Working::store_nowhere, crate::proofs::Working::store_short, crate::proofs::Working::store_through_lem))]
pub fn store(ws: &mut [u8], n: usize, ty: Ty, v: Val) -> Option<()>
    requires { Fit ws.old (counts_in ws.old).stored }
    ensures { Works (store_through n (result_in ws.old) ty v) ws.old (told_end (is_some result) ws.new) ws.new }
{
    let p = registers::value(ws, RESULT);
    if !p.known {
        return ends(ws, Short::Why(Reason::UnknownAddress, n as u64));
    }
    let c = v.cast(ty);
    store_value(ws, p.number, c)?;
    wrote(ws, Told::Written, p.number, c)
}

// ---- fields

// The last result is stored as the field at node n, at its offset from an address.
#[tactic(auto, using(crate::proofs::Working::field_works))]
pub fn store_field(nodes: &[u8], ws: &mut [u8], n: usize, address: u64) -> Option<()>
    requires fit { Fit ws.old (counts_in ws.old).stored }
    requires typed { TypeAt nodes.now n }
    ensures { Works (store_field address (value_of nodes.now n) (type_at (tables ws.old) (ref_of nodes.now n)) (result_in ws.old)) ws.old (unit_in (is_some result) ws.new) ws.new }
{
    let ty = type_of(nodes, ws, n);
    let offset = nodes::value(nodes, n);
    let place = address.wrapping_add(offset);
    let v = registers::value(ws, RESULT);
    store_value(ws, place, v.cast(ty))
}

// How many fields stand from node n up to node end.
#[tactic(auto, using(crate::proofs::Rows::row_of_fields, crate::proofs::Counting::counts_of))]
fn count(nodes: &[u8], n: usize, end: usize) -> u64
    requires { FineFields nodes.now n end }
    ensures { CountsFields nodes.now n end result }
{
    Siblings::new(nodes, n, end).count() as u64
}

// The fields from node n up to node end were stored from an address on.
#[tactic(auto, using(crate::proofs::Counting::built_fields))]
pub fn built(nodes: &[u8], ws: &mut [u8], n: usize, end: usize, address: u64) -> Option<()>
    requires workspace_long { workspace_size ≤ length ws.old }
    requires fine_fields { FineFields nodes.now n end }
    ensures { Builds nodes.now n end address ws.old (is_some result) ws.new }
{
    let k = count(nodes, n, end);
    fields(ws, address, k)
}
