// The kinds of lines of a trace.
ghost use Rattle.std.specs.Prelude.{◌≡◌, ◌≤◌, ◌+◌, pos, true, [], length, Some, IfOk, IfErr};
ghost use Rattle.sercos_trace.specs.Clauses.{result_err, addresses_in, is_template, values_of, items_of, numbers_in, signed_by, bytes_by, AreOf, template_of, tail_for, all_kinds, kinds_fault, first_kind};

use sercos_text::{Tail, Told, read_line};

/// A kind of line of a trace.
#[derive(Clone, Copy, Debug, PartialEq, Eq)]
pub enum LineKind {
    /// The version, the first line.
    Version,
    /// The numbers of the ring, the second line.
    Ring,
    /// The planner's input of a drive.
    Drive,
    /// The addresses in the order of the ATs.
    Order,
    /// An MST.
    Mst,
    /// A drive moved into another phase.
    Phase,
    /// An AT.
    At,
    /// An MDT.
    Mdt,
    /// A request is complete.
    Complete,
    /// A request was refused.
    Refused,
    /// A request was broken by a fall.
    Broken,
    /// The plan was made.
    Plan,
    /// The time slot of a drive in the plan.
    Slot,
    /// The stop because no plan fits.
    NoFit,
    /// A link of the chain that shows why no plan fits.
    RuleAt,
    /// The bound that this chain breaks.
    RuleSum,
    /// The stop because a drive refused a job of the start-up.
    StopRefused,
    /// The stop because of an invalid configuration.
    StopConfig,
    /// The stop because the check for phase 3, S-0-0127, failed.
    Check127,
    /// The stop because the check for phase 4, S-0-0128, failed.
    Check128,
    /// The fall because MSTs were lost.
    FallMst,
    /// The fall because ATs were lost.
    FallAt,
    /// The fall because a step wasn't answered within its limit.
    FallStep,
    /// The fall because the master restarted.
    FallRestart,
    /// The totals, the last line.
    End,
}

// All kinds, the most frequent ones first, since a line is tried against each in this order.
const KINDS: [LineKind; 25] = [
    LineKind::At,
    LineKind::Mst,
    LineKind::Mdt,
    LineKind::Version,
    LineKind::Ring,
    LineKind::Drive,
    LineKind::Order,
    LineKind::Phase,
    LineKind::Complete,
    LineKind::Refused,
    LineKind::Broken,
    LineKind::Plan,
    LineKind::Slot,
    LineKind::NoFit,
    LineKind::RuleAt,
    LineKind::RuleSum,
    LineKind::StopRefused,
    LineKind::StopConfig,
    LineKind::Check127,
    LineKind::Check128,
    LineKind::FallMst,
    LineKind::FallAt,
    LineKind::FallStep,
    LineKind::FallRestart,
    LineKind::End,
];

/// Returns the template of a kind of line, at most 64 bytes. Each capital is a field: `B`, `W` and `D` are numbers of 8, 16 and 32 bits,
/// `S` is a signed number of 32 bits, `H` and `R` are up to 2048 and 1024 bytes, `C` and `A` are two and four bytes, and `I` is an
/// identifier number.
#[tactic(auto, unfolding(crate::specs::Kinds::template_of))]
pub(crate) fn template_for(kind: LineKind) -> &'static [u8]
    ensures value { result.now ≡ template_of kind }
    ensures few { length result.now ≤ 64 }
{
    match kind {
        LineKind::Version => b"sercos 1",
        LineKind::Ring => b"ring B W W W B",
        LineKind::Drive => b"drive B B W W W W W W W W",
        LineKind::Order => b"order",
        LineKind::Mst => b"m D S D H",
        LineKind::Phase => b"p D B B",
        LineKind::At => b"a D S D H",
        LineKind::Mdt => b"d D S D H",
        LineKind::Complete => b"r D W complete R",
        LineKind::Refused => b"r D W refused 0xC",
        LineKind::Broken => b"r D W broken",
        LineKind::Plan => b"plan D t2 W t3 W t4 W mdt W",
        LineKind::Slot => b"slot D B t1 W position W",
        LineKind::NoFit => b"stop D nofit",
        LineKind::RuleAt => b"rule D B drive B at D",
        LineKind::RuleSum => b"rule D B drive B sum D bound D",
        LineKind::StopRefused => b"stop D refused B I 0xC",
        LineKind::StopConfig => b"stop D config B I 0xA",
        LineKind::Check127 => b"stop D check127 B",
        LineKind::Check128 => b"stop D check128 B",
        LineKind::FallMst => b"fall D mst",
        LineKind::FallAt => b"fall D at B",
        LineKind::FallStep => b"fall D step B",
        LineKind::FallRestart => b"fall D restart",
        LineKind::End => b"end D phase B complete D refused D broken D falls D unseen D",
    }
}

/// A law: in the template of each kind, each field is followed by a space or the end. Reading a line back relies on this.
pub fn template_law()
    ensures { (kind : LineKind) → is_template (template_of kind) ≡ true }
{}

// Returns what follows the template of a kind: addresses for the order, identifier numbers for a failed check, otherwise nothing.
#[tactic(auto, unfolding(crate::specs::Kinds::tail_for))]
fn tail_for(kind: LineKind) -> Tail
    ensures { result ≡ tail_for kind }
{
    match kind {
        LineKind::Order => Tail::Addresses,
        LineKind::Check127 | LineKind::Check128 => Tail::Idents,
        _ => Tail::End,
    }
}

// Reads a line as the first of these kinds that it fits. Returns that kind, with the values of its fields in `told`. The error is the
// offset of the first byte at which the line can't continue any of these kinds, at most one more than its length. For a number beyond its
// field's type, and for a byte or an address too many, that is its first digit; for an identifier number above 4095 the first of its four
// digits; for a missing byte the line's length. Without kinds it is 0. After an error `told` is unspecified.
fn read_kinds(kinds: &[LineKind], line: &[u8], told: &mut Told) -> Result<LineKind, usize>
    ensures fault { result_err result ≡ kinds_fault kinds.now line.now }
    ensures bound { IfErr result (λ place. place ≤ length line.now + 1) }
    ensures kind { IfOk result (λ kind. first_kind kinds.now line.now ≡ Some kind) }
    ensures fields { IfOk result (λ kind. AreOf (template_of kind) (values_of (template_of kind) line.now)) }
    ensures numbers { IfOk result (λ kind. told.new.numbers.items ≡ numbers_in (values_of (template_of kind) line.now)) }
    ensures signed { IfOk result (λ kind. told.new.signed ≡ signed_by (pos 0) (values_of (template_of kind) line.now)) }
    ensures bytes { IfOk result (λ kind. told.new.bytes ≡ bytes_by [] (values_of (template_of kind) line.now)) }
    ensures addresses { IfOk result (λ kind. told.new.addresses.items ≡ addresses_in (tail_for kind) (items_of (tail_for kind) (template_of kind) line.now)) }
{
    let mut last = 0;
    for kind in kinds {
        match read_line(template_for(*kind), tail_for(*kind), line, told) {
            Ok(()) => return Ok(*kind),
            Err(place) => last = last.max(place),
        }
    }
    Err(last)
}

/// Reads a line of a trace, without its line feed. Returns its kind, with the values of its fields in `told`. The error is the offset of
/// the first byte at which the line can't continue any kind, as `read_kinds` has it, at most one more than its length; then `told` is
/// unspecified.
pub(crate) fn read_kind(line: &[u8], told: &mut Told) -> Result<LineKind, usize>
    ensures fault { result_err result ≡ kinds_fault all_kinds line.now }
    ensures bound { IfErr result (λ place. place ≤ length line.now + 1) }
    ensures kind { IfOk result (λ kind. first_kind all_kinds line.now ≡ Some kind) }
    ensures fields { IfOk result (λ kind. AreOf (template_of kind) (values_of (template_of kind) line.now)) }
    ensures numbers { IfOk result (λ kind. told.new.numbers.items ≡ numbers_in (values_of (template_of kind) line.now)) }
    ensures signed { IfOk result (λ kind. told.new.signed ≡ signed_by (pos 0) (values_of (template_of kind) line.now)) }
    ensures bytes { IfOk result (λ kind. told.new.bytes ≡ bytes_by [] (values_of (template_of kind) line.now)) }
    ensures addresses { IfOk result (λ kind. told.new.addresses.items ≡ addresses_in (tail_for kind) (items_of (tail_for kind) (template_of kind) line.now)) }
{
    read_kinds(&KINDS, line, told)
}
