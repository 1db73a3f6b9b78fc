//! Names of which many are kept, each in one block of memory that is hardly longer than the name.
ghost use Rattle.std.specs.Prelude.{◌≡◌, ◌≤◌, ◌<◌, length, IfSome, Some, nat_eq, refl};
ghost use Rattle.std.specs.Cmp.{partial_equiv_from_equiv};
ghost use Rattle.std.specs.Cmp.Lexicographic.{pointwise, slice_cmp, nat_list_eq_equiv, nat_list_cmp_total, texts_ties, texts_po};
ghost use Rattle.std.specs.Ordering.{nat_cmp};
ghost use Rattle.flow_maps.specs.Names.{bytes_of};

use std::alloc::Global;
use std::boxed::Box;
use std::cmp::Ordering;
use std::marker::Model;
use std::mem::size_of;

/// Some bytes, and how many of them count.
#[derive(Drop)]
struct Held<const N: usize> {
    bytes: [u8; N],
    len: u8,
}

impl<const N: usize> Model for Held<N> {
    ghost use Rattle.std.specs.Prelude.{ℕ, List, take, ◌≤◌};

    ghost Value = { List ℕ };

    ghost view = { λ h. take h.len h.bytes };

    ghost invariant = { λ h. h.len ≤ N };
}

impl<const N: usize> Held<N> {
    fn new(bytes: &[u8]) -> Held<N>
        requires fits { length bytes.now ≤ N }
        requires counted { N < 256 }
        ensures { result ≡ bytes.now }
    {
        let len = bytes.len();
        let mut held = [0; N];
        held[..len].copy_from_slice(bytes);
        Held {
            bytes: held,
            len: len as u8,
        }
    }

    fn as_bytes(&self) -> &[u8]
        ensures { result.now ≡ self.now }
    {
        &self.bytes[..usize::from(self.len)]
    }
}

/// A block of memory of one of the sizes that an allocator gives out with eight bytes of its own: 32 bytes in all, 48, 64, 80 or 144.
#[derive(Drop)]
enum Block {
    To23(Box<Held<23>>),
    To39(Box<Held<39>>),
    To55(Box<Held<55>>),
    To71(Box<Held<71>>),
    To135(Box<Held<135>>),
}

/// A name of at most 135 bytes. In each place of a map it takes eight bytes less than a `String`, which has a length and room there.
#[derive(Drop)]
pub struct Name {
    block: Block,
}

const _: () = prove!(size_of::<Name>() == 16);

impl Model for Name {
    ghost use Rattle.std.specs.Prelude.{ℕ, List};
    ghost use Rattle.flow_maps.specs.Names.{bytes_of};

    ghost Value = { List ℕ };

    ghost view = { λ n. bytes_of n.block };
}

fn boxed<const N: usize>(alloc: Global, bytes: &[u8]) -> Option<Box<Held<N>>>
    requires fits { length bytes.now ≤ N }
    requires counted { N < 256 }
    ensures { IfSome result (λ b. b.value ≡ bytes.now) }
{
    match Box::new(alloc, Held::new(bytes)) {
        Ok(held) => Some(held),
        Err(_) => None,
    }
}

fn block_of(alloc: Global, bytes: &[u8]) -> Option<Block>
    ensures { IfSome result (λ b. bytes_of b ≡ bytes.now) }
{
    let len = bytes.len();
    if len <= 23 {
        return Some(Block::To23(boxed(alloc, bytes)?));
    }
    if len <= 39 {
        return Some(Block::To39(boxed(alloc, bytes)?));
    }
    if len <= 55 {
        return Some(Block::To55(boxed(alloc, bytes)?));
    }
    if len <= 71 {
        return Some(Block::To71(boxed(alloc, bytes)?));
    }
    if len <= 135 {
        return Some(Block::To135(boxed(alloc, bytes)?));
    }
    None
}

impl Name {
    /// The name of these bytes, if they are few enough and there is memory for it.
    pub fn new(alloc: Global, bytes: &[u8]) -> Option<Name>
        ensures { IfSome result (λ n. n ≡ bytes.now) }
    {
        let block = block_of(alloc, bytes)?;
        Some(Name { block })
    }

    /// Its bytes.
    pub fn as_bytes(&self) -> &[u8]
        ensures { result.now ≡ self.now }
    {
        match &self.block {
            Block::To23(held) => held.as_bytes(),
            Block::To39(held) => held.as_bytes(),
            Block::To55(held) => held.as_bytes(),
            Block::To71(held) => held.as_bytes(),
            Block::To135(held) => held.as_bytes(),
        }
    }
}

/// Both at one lifetime.
fn order<'x>(a: &'x [u8], b: &'x [u8]) -> Ordering
    ensures { result ≡ slice_cmp nat_cmp a.now b.now }
{
    Ord::cmp(&a, &b)
}

impl PartialEq for Name {
    ghost eq = { pointwise nat_eq };

    ghost laws = { partial_equiv_from_equiv nat_list_eq_equiv };

    fn eq(&self, other: &Name) -> bool {
        self.as_bytes() == other.as_bytes()
    }
}

impl Eq for Name {
    ghost laws = { nat_list_eq_equiv };
}

impl PartialOrd for Name {
    ghost partial_cmp = { λ x y. Some (slice_cmp nat_cmp x y) };

    ghost laws = { texts_po };

    fn partial_cmp(&self, other: &Name) -> Option<Ordering> {
        Some(self.cmp(other))
    }
}

impl Ord for Name {
    ghost cmp = { slice_cmp nat_cmp };

    ghost total = { nat_list_cmp_total };

    ghost matches_partial_cmp = { λ x y. refl };

    ghost matches_eq = { texts_ties };

    fn cmp(&self, other: &Name) -> Ordering {
        order(self.as_bytes(), other.as_bytes())
    }
}
