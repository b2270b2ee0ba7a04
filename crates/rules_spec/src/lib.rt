// The step rules of 01, one file of definitions for each rule, with its number and its effect on every slot; step; walk. And how code refuses:
// the numbers of the refusals by the names that specs/Refusal has for them.
// Promised: the number that a test gives.
#![tactic(auto)]

ghost use Rattle.std.specs.Prelude.{◌≡◌, cond};

// Numbers and no enum: 01's form matches ranges of refusal numbers, and check_at, held_step and held_walk are equations of them.
pub const NO_INSTRUCTION_LEFT: u32 = 10;

pub const ID_ABSENT: u32 = 11;

pub const ID_PRESENT: u32 = 12;

pub const NO_SUCH: u32 = 13;

pub const ONE_INSTANCE: u32 = 14;

pub const ALREADY_CONNECTED: u32 = 15;

pub const NO_MORE_CONNECTIONS: u32 = 16;

pub const NO_SUCH_CONNECTION: u32 = 17;

pub const STILL_CONNECTED: u32 = 18;

pub const TICKET_NOT_ABOVE: u32 = 19;

pub const QUEUE_FULL: u32 = 20;

pub const QUEUE_NOT_EMPTY: u32 = 21;

pub const USE_PORT_ACTIVE: u32 = 22;

pub const STILL_QUEUED: u32 = 23;

pub const NEVER_PUSHED: u32 = 24;

pub const QUEUE_EMPTY: u32 = 30;

pub const NOT_READY: u32 = 31;

pub const NO_TRANSITION: u32 = 32;

pub const HELD_OR_MARKED: u32 = 33;

pub const UNSERVED: u32 = 34;

pub const PROVIDER_REFUSING: u32 = 35;

pub const SERVICE_IN_USE: u32 = 36;

pub const TOO_EARLY: u32 = 37;

pub const UNCONNECTED: u32 = 38;

// The first test that holds gives its number, else what follows, as in specs/Refusal.
pub fn refuse_if<T: Drop>(test: bool, n: T, rest: T) -> T
    ensures { result ≡ cond test n rest }
{
    if test { n } else { rest }
}
