//! Which root counts. The head of a store is a gate, the format's name, and two slots, each with a
//! gate, a generation and a start; all numbers are little-endian.
ghost use Rattle.std.specs.Prelude.{◌≡◌, ◌+◌, ◌≤◌, ◌^◌, IfOk, drop, length};
ghost use Rattle.hac_outside.specs.Causes.{HasCause, ReportsFault};
ghost use Rattle.hac_disk.specs.Images.{IsQuiet};
ghost use Rattle.hac_disk.specs.Contents.{RangeWithin};
ghost use Rattle.hac_checkpoint.specs.Roots.{IsHeadRoot, IsRootSeen, agreeing, counting, gate_of};
ghost use Rattle.hac_checkpoint.specs.Roots.{generation, higher, is_open, named, root_of, slots};
ghost use Rattle.hac_checkpoint.specs.Roots.{is_disk_fault, start, store_name};

use byteorder::{ByteOrder, LittleEndian};
use hac_disk::Disk;
use hac_journal::OPEN;
use hac_outside::Failed;
use thiserror::Error;

const NAME: [u8; 8] = *b"HACSTOR1";

// This many bytes decide the root.
const HEAD: usize = 43;

// No area begins before this place.
pub(crate) const FIRST_AREA: u64 = 64;

/// One of the two places for a root.
#[derive(Clone, Copy, Debug, PartialEq, Eq)]
pub enum Slot {
    /// At 9.
    A,
    /// At 26.
    B,
}

/// The root that counts.
#[derive(Clone, Copy, Debug, PartialEq, Eq)]
pub struct Root {
    /// Its place.
    pub slot: Slot,
    /// How often a root was written before it, and one.
    pub generation: u64,
    /// The place of the first gate of the live area.
    pub start: u64,
}

/// Why there is no root.
#[derive(Clone, Copy, Debug, PartialEq, Eq, Error)]
pub enum RootFault {
    /// A call of the disk failed.
    #[error("the disk failed")]
    Disk,
    /// The file is no store.
    #[error("no store: byte {at}")]
    Bad {
        /// The place of the first byte that is wrong, or the file's length where it ends too early.
        at: u64,
    },
}

impl From<Failed> for RootFault {
    ghost use Rattle.std.specs.Prelude.{◌≡◌};
    ghost use Rattle.hac_checkpoint.specs.declared.heads.RootFault.TheVariants as fault;

    ghost from_gives = { λ _ e. e ≡ fault.Disk };

    fn from(_: Failed) -> Self {
        RootFault::Disk
    }
}

/// What is wrong with a root, or with a log behind it.
#[derive(Clone, Copy)]
pub enum Stop {
    /// The bytes end before all is there that is needed.
    Short,
    /// The byte at that place is wrong.
    BadAt(u64),
}

/// The root of a store. It reads the head of the file, and no more.
pub fn roots<D: Disk>(disk: &mut D) -> Result<Root, RootFault>
    ensures root { IsRootSeen result (D.seen disk.old).contents }
    ensures quiet { IsQuiet (D.seen disk.old) (D.seen disk.new) }
    ensures attached { (D.seen disk.new).attached ≡ (D.seen disk.old).attached }
    ensures faults { ReportsFault (is_disk_fault result) (D.seen disk.old).faults
        (D.seen disk.new).faults }
{
    let len = disk.len()?;
    let mut head = [0; HEAD];
    let size = HEAD.min(len as usize);
    match read_root(disk, &mut head[..size])? {
        Ok(root) => Ok(root),
        Err(Stop::Short) => Err(RootFault::Bad { at: len }),
        Err(Stop::BadAt(at)) => Err(RootFault::Bad { at }),
    }
}

// Fills the bytes from the beginning of the file, and gives the root that they decide.
fn read_root<D: Disk>(disk: &mut D, head: &mut [u8]) -> Result<Result<Root, Stop>, Failed>
    requires { RangeWithin (D.seen disk.old).contents 0 (length head.old) }
    ensures root { IfOk result (λ root. IsHeadRoot root (length head.old)
        (D.seen disk.old).contents) }
    ensures quiet { IsQuiet (D.seen disk.old) (D.seen disk.new) }
    ensures attached { (D.seen disk.new).attached ≡ (D.seen disk.old).attached }
    ensures cause { HasCause (D.seen disk.old).faults (D.seen disk.new).faults result }
{
    disk.read_at(0, head)?;
    Ok(root_in(head))
}

// The root of a file that begins with these bytes.
#[tactic(auto, unfolding(crate::specs::Roots::root_of))]
fn root_in(image: &[u8]) -> Result<Root, Stop>
    ensures { result ≡ root_of image.now }
{
    if image.is_empty() {
        return Err(Stop::Short);
    }
    if image[0] != OPEN {
        return Err(Stop::BadAt(0));
    }
    named_root(image)
}

// Behind an open gate: the format's name.
#[tactic(auto, unfolding(crate::specs::Roots::named))]
fn named_root(image: &[u8]) -> Result<Root, Stop>
    ensures { result ≡ named image.now }
{
    if image.len() < 9 {
        return Err(Stop::Short);
    }
    let same = agreeing_with_name(&image[1..]);
    if same != NAME.len() {
        return Err(Stop::BadAt(1 + same as u64));
    }
    root_in_slots(image)
}

// How many bytes of the name agree with these.
fn agreeing_with_name(bytes: &[u8]) -> usize
    requires { 8 ≤ length bytes.now }
    ensures agreeing { result ≡ agreeing store_name bytes.now }
    ensures most { result ≤ 8 }
{
    for i in 0..NAME.len() {
        if bytes[i] != NAME[i] {
            return i;
        }
    }
    NAME.len()
}

// Which slot is open.
#[tactic(auto, unfolding(crate::specs::Roots::slots))]
fn root_in_slots(image: &[u8]) -> Result<Root, Stop>
    ensures { result ≡ slots image.now }
{
    if image.len() < 27 {
        return Err(Stop::Short);
    }
    if is_slot_open(image, Slot::B) {
        if image.len() < 35 {
            return Err(Stop::Short);
        }
        return higher_root(image);
    }
    if is_slot_open(image, Slot::A) {
        return counting_root(image, Slot::A);
    }
    Err(Stop::BadAt(9))
}

// Slot B is open: where A is too, the higher generation counts.
#[tactic(auto, using(std::proofs::lemmas::List::take_rest), unfolding(crate::specs::Roots::higher))]
fn higher_root(image: &[u8]) -> Result<Root, Stop>
    requires { 35 ≤ length image.now }
    ensures { result ≡ higher image.now }
{
    if !is_slot_open(image, Slot::A) {
        return counting_root(image, Slot::B);
    }
    let first = LittleEndian::read_u64(&image[10..]);
    let second = LittleEndian::read_u64(&image[27..]);
    if first == second {
        return Err(Stop::BadAt(27));
    }
    counting_root(image, if second < first { Slot::A } else { Slot::B })
}

// Where the slot that counts has its start.
#[tactic(auto, using(std::proofs::lemmas::List::take_rest), unfolding(crate::specs::Roots::counting))]
fn counting_root(image: &[u8], slot: Slot) -> Result<Root, Stop>
    ensures { result ≡ counting slot image.now }
{
    let gate = gate_place(slot);
    if image.len() < gate + 17 {
        return Err(Stop::Short);
    }
    let start = LittleEndian::read_u64(&image[gate + 9..]);
    if start < FIRST_AREA {
        return Err(Stop::BadAt(gate as u64 + 9));
    }
    let generation = LittleEndian::read_u64(&image[gate + 1..]);
    Ok(Root {
        slot,
        generation,
        start,
    })
}

// The place of a slot's gate.
pub(crate) fn gate_place(slot: Slot) -> usize
    ensures place { result ≡ gate_of slot }
    ensures most { result ≤ 26 }
{
    match slot {
        Slot::A => 9,
        Slot::B => 26,
    }
}

fn is_slot_open(image: &[u8], slot: Slot) -> bool
    requires { 27 ≤ length image.now }
    ensures { result ≡ is_open slot image.now }
{
    image[gate_place(slot)] == OPEN
}
