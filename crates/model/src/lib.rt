// What the two texts say (tables, program, answer), the configuration, and what judging answers: the records that the definitions speak of. Code holds
// them as words of lent arrays (crates/words).
// Promised: each reader answers what stands at a place of its table, and 0 past its end.
#![tactic(auto)]

ghost use Rattle.std.specs.Prelude.{◌≡◌, ◌≤◌, ◌<◌, min, get_or, set};

// How many places a type has, which are initial, and how many transitions, behaviors and ports it has.
#[derive(Clone, Copy)]
pub struct ComponentType {
    pub places: u8,
    pub initial: u32,
    pub transitions: u8,
    pub behaviors: u8,
    pub ports: u8,
}

// The ends of every type's transitions, 32 places for each type.
#[derive(Clone, Copy)]
pub struct Transitions {
    pub source: [u8; 512],
    pub destination: [u8; 512],
}

// Every type's ports, 16 places for each type: 1 for a use port and 0 for a provide port, and the group.
#[derive(Clone, Copy)]
pub struct Ports {
    pub uses: [u8; 256],
    pub places: [u32; 256],
    pub transitions: [u32; 256],
}

// The depth stays as it was written: 0 stands for the default. Behaviors are sets of transitions, 8 for each type.
#[derive(Drop)]
pub struct Tables {
    pub depth: u8,
    pub count: u8,
    pub types: [ComponentType; 16],
    pub transitions: Transitions,
    pub behaviors: [u32; 128],
    pub ports: Ports,
}

// 0 add,id,type; 1 del,id; 2 pushb,id,behavior; 3 con,user,useport,provider,provideport; 4 dcon, the same four; 5 wait,id; 6 pushb,id,behavior,ticket;
// 7 wait,id,ticket. `id` is the user of `con` and `dcon`, `number` the type, the behavior, the use port or the ticket of a `wait`, `provider` the
// ticket of a push too.
#[derive(Clone, Copy)]
pub struct Instruction {
    pub verb: u8,
    pub id: u8,
    pub number: u8,
    pub provider: u8,
    pub provideport: u8,
}

// What a paper starts with of tickets: the queue slots, and for each instance one more than the last ticket pushed to it, 0 for none.
#[derive(Drop)]
pub struct Begun {
    pub queue: [u16; 256],
    pub last: [u16; 32],
}

// `edition` is the number that the sheet opens with; `begun` is what had been pushed before the first instruction.
#[derive(Drop)]
pub struct Program {
    pub edition: u8,
    pub begun: Begun,
    pub instructions: [Instruction; 256],
    pub count: usize,
}

// 0 next; 1 fire,id,place; 2 end,id,transition; 3 enter,id,place; 4 finish,id
#[derive(Clone, Copy)]
pub struct Step {
    pub verb: u8,
    pub id: u8,
    pub number: u8,
}

#[derive(Clone, Copy)]
pub struct Answer {
    pub steps: [Step; 1024],
    pub count: usize,
}

// `kind` is the number of its type; `queued` is how many behaviors its queue holds.
#[derive(Clone, Copy)]
pub struct Instance {
    pub present: bool,
    pub kind: u8,
    pub marked: u32,
    pub running: u32,
    pub ended: u32,
    pub queued: u8,
}

#[derive(Clone, Copy)]
pub struct Connection {
    pub user: u8,
    pub useport: u8,
    pub provider: u8,
    pub provideport: u8,
}

// Eight queue slots for each instance, the head first: a behavior, and where the push had a ticket 8 times one more than it; `done` is how many instructions
// are done. `servers` says who serves each use port, 16 places for each instance: 0 for nobody, else one more than 16 times the provider and its provide port.
#[derive(Drop)]
pub struct Configuration {
    pub instances: [Instance; 32],
    pub queue: [u16; 256],
    pub servers: [u16; 512],
    pub done: usize,
}

// The use port that a verdict is about: the lowest that failed, for 34 and 38 alone. No Option: NamesTheLowest of rules_spec and the marked cases name the two.
#[derive(Clone, Copy)]
pub enum Concerned {
    NoPort,
    UsePort(u8),
}

// What a step answers: the number of the refusal, or 0, the use port concerned, and the configuration after it.
#[derive(Drop)]
pub struct Stepped {
    pub refused: u8,
    pub port: Concerned,
    pub configuration: Configuration,
}

// What a walk answers: the steps allowed, the number of the refusal, or 0, and the configuration reached.
#[derive(Drop)]
pub struct Walked {
    pub accepted: usize,
    pub refused: u8,
    pub port: Concerned,
    pub configuration: Configuration,
}

// Which text a verdict or a place speaks of; the judge reads no times. No Option: the definitions of Verdict and Place name the case Neither.
#[derive(Clone, Copy)]
pub enum Text {
    Neither,
    Sheet,
    Answer,
    Times,
    Start,
}

pub fn wide(x: u8) -> usize
    ensures value { result ≡ x }
    ensures small { result < 256 }
{
    usize::from(x)
}

// What stands at place i of a table, and what is said for none past its end.
pub fn at_or<T: Copy>(a: &[T], i: usize, none: T) -> T
    ensures { result ≡ get_or a.now i none }
{
    a.get(i).copied().unwrap_or(none)
}

// A place past the last takes nothing.
pub fn put_at<T: Copy>(a: &mut [T], i: usize, x: T)
    ensures { a.new ≡ set a.old i x }
{
    if i < a.len() {
        a[i] = x;
    }
}

pub fn smaller(a: usize, b: usize) -> usize
    ensures value { result ≡ min a b }
    ensures small { result ≤ b }
{
    a.min(b)
}
