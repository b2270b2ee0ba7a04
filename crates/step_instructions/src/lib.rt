// The instructions on words: add, del, pushb, con, dcon and wait, the last also for one push, each a check and a change made in place.
// Promised: for every tables, state and number, each check answers the number of rules_spec/specs, and each change is that of rules_spec/specs.
#![tactic(auto)]

pub mod tickets;

ghost use Rattle.std.specs.Prelude.{◌≡◌, cond, ℕ, suc, ◌*◌, ◌<◌, ltb};
ghost use Rattle.model.specs.View.{instance, with_queue};
ghost use Rattle.rules_spec.specs.Closing.{zeroed, renewed};
ghost use Rattle.rules_spec.specs.Standing.{standing};
ghost use Rattle.rules_spec.specs.Add.{add_check, added};
ghost use Rattle.rules_spec.specs.Del.{del_check, deleted};
ghost use Rattle.rules_spec.specs.PushB.{depth_of, push_with, pushb_check, pushed};
ghost use Rattle.rules_spec.specs.Con.{is_use_port, is_provide_port, con_check};
ghost use Rattle.rules_spec.specs.DCon.{dcon_check};
ghost use Rattle.rules_spec.specs.Wait.{whole, one, is_queued, wait_check};
ghost use Rattle.words.specs.Words.{tables_in, state_in};
ghost use Rattle.words.specs.Parts.{bare, connection_of_words};

use rules_spec::{
    ALREADY_CONNECTED, ID_ABSENT, ID_PRESENT, NEVER_PUSHED, NO_MORE_CONNECTIONS, NO_SUCH,
    NO_SUCH_CONNECTION, ONE_INSTANCE, QUEUE_FULL, QUEUE_NOT_EMPTY, STILL_CONNECTED, STILL_QUEUED,
    TICKET_NOT_ABOVE, USE_PORT_ACTIVE, refuse_if,
};
use step_connections::{has_server, is_named, stands};
use step_instance::active;
use words::state::{entries, kind, present, put_bare, put_queued, put_slot, queued, slot};
use words::tables::{behaviors_of, depth, initial_of, is_use, ports_of};
use words::{StateWords, TableWords};

pub fn add_check(state: &StateWords, i: u32) -> u32
    ensures { result ≡ add_check (state_in state.now) i }
{
    refuse_if(present(state, i), ID_PRESENT, 0)
}

fn zero_slots(state: &mut StateWords, i: u32)
    ensures { state_in state.new ≡ with_queue (state_in state.old) (zeroed (state_in state.old).queue (i * 8) 8) }
{
    let at = (i as usize) * 8;
    for r in 0..8 {
        put_slot(state, at + r, 0);
    }
}

// The record of instance i is a bare one, and its queue slots are zeroed.
fn renew(state: &mut StateWords, i: u32, here: bool, k: u32, marks: u32)
    ensures { state_in state.new ≡ renewed (state_in state.old) i (bare here k marks) }
{
    zero_slots(state, i);
    put_bare(state, i, here, k, marks);
}

// The initial places of type k are marked.
pub fn add_to(tables: &TableWords, state: &mut StateWords, i: u32, k: u32)
    ensures { state_in state.new ≡ added (tables_in tables.now) (state_in state.old) i k }
{
    let marks = initial_of(tables, k);
    renew(state, i, true, k, marks);
}

pub fn del_check(state: &StateWords, i: u32) -> u32
    ensures { result ≡ del_check (standing (state_in state.now)) (state_in state.now) i }
{
    let here = present(state, i);
    let named = is_named(state, i);
    let late = refuse_if(queued(state, i) != 0, QUEUE_NOT_EMPTY, 0);
    refuse_if(!here, ID_ABSENT, refuse_if(named, STILL_CONNECTED, late))
}

pub fn del_to(state: &mut StateWords, i: u32)
    ensures { state_in state.new ≡ deleted (state_in state.old) i }
{
    renew(state, i, false, 0, 0);
}

// How many behaviors a queue may hold: 0 stands for the default.
pub fn depth_of(default: u32, tables: &TableWords) -> u32
    ensures { result ≡ depth_of default (tables_in tables.now) }
{
    let own = depth(tables);
    if own == 0 { default } else { own }
}

// Where it is allowed there is room for one more.
// Late: it has a ticket that is not above the last.
pub fn pushb_check(
    default: u32,
    tables: &TableWords,
    state: &StateWords,
    i: u32,
    b: u32,
    late: bool,
) -> u32
    ensures value { result ≡ pushb_check default (tables_in tables.now) (state_in state.now) i (push_with b late) }
    ensures room { result ≡ 0 → (instance (state_in state.now) i).queued < 4294967295 }
{
    let here = present(state, i);
    let exists = b % 8 < behaviors_of(tables, kind(state, i));
    let room = queued(state, i) < depth_of(default, tables);
    let full = refuse_if(!room, QUEUE_FULL, 0);
    let above = refuse_if(late, TICKET_NOT_ABOVE, full);
    refuse_if(!here, ID_ABSENT, refuse_if(!exists, NO_SUCH, above))
}

// One more, and past the last word the same.
fn one_more(n: u32) -> u32
    ensures { result ≡ cond (ltb n 4294967295) (suc n) n }
{
    n.saturating_add(1)
}

// Where a word counts them no longer, nothing changes.
pub fn push_to(state: &mut StateWords, i: u32, b: u32)
    ensures { state_in state.new
        ≡ cond (ltb (instance (state_in state.old) i).queued 4294967295) (pushed (state_in state.old) i b) (state_in state.old) }
{
    let n = queued(state, i);
    put_slot(state, (i as usize) * 8 + n as usize, b);
    put_queued(state, i, one_more(n));
}

// Port q of instance i exists and is a use port, or a provide port.
pub fn is_port(tables: &TableWords, state: &StateWords, i: u32, q: u32, used: bool) -> bool
    ensures { result ≡ cond used (is_use_port (tables_in tables.now) (state_in state.now) i q)
        (is_provide_port (tables_in tables.now) (state_in state.now) i q) }
{
    let k = kind(state, i);
    if ports_of(tables, k) <= q {
        return false;
    }
    if used {
        is_use(tables, k, q)
    } else {
        !is_use(tables, k, q)
    }
}

pub fn con_check(tables: &TableWords, state: &StateWords, u: u32, uq: u32, v: u32, vq: u32) -> u32
    ensures { result ≡ con_check (tables_in tables.now) (standing (state_in state.now)) (state_in state.now)
        (connection_of_words u uq v vq) }
{
    let user = present(state, u);
    let provider = present(state, v);
    let uses = is_port(tables, state, u, uq, true);
    let provides = is_port(tables, state, v, vq, false);
    let taken = has_server(state, u, uq);
    let room = entries(state) < 64;
    let late = refuse_if(!room, NO_MORE_CONNECTIONS, 0);
    let joined = refuse_if(
        u == v,
        ONE_INSTANCE,
        refuse_if(taken, ALREADY_CONNECTED, late),
    );
    let kinds = refuse_if(!uses, NO_SUCH, refuse_if(!provides, NO_SUCH, joined));
    refuse_if(!user, ID_ABSENT, refuse_if(!provider, ID_ABSENT, kinds))
}

pub fn dcon_check(tables: &TableWords, state: &StateWords, u: u32, uq: u32, v: u32, vq: u32) -> u32
    ensures { result ≡ dcon_check (tables_in tables.now) (standing (state_in state.now)) (state_in state.now)
        (connection_of_words u uq v vq) }
{
    let stands = stands(state, u, uq, v, vq);
    let late = refuse_if(active(tables, state, u, uq), USE_PORT_ACTIVE, 0);
    refuse_if(!stands, NO_SUCH_CONNECTION, late)
}

pub fn wait_check(state: &StateWords, i: u32) -> u32
    ensures { result ≡ wait_check (state_in state.now) (whole i) }
{
    let here = present(state, i);
    let late = refuse_if(queued(state, i) != 0, QUEUE_NOT_EMPTY, 0);
    refuse_if(!here, ID_ABSENT, late)
}

// A push of this stamp is queued.
fn is_queued(state: &StateWords, i: u32, stamp: usize) -> bool
    ensures { result ≡ is_queued (state_in state.now) i stamp }
{
    (0..queued(state, i)).any(|r| (slot(state, i, r) / 8) as usize == stamp)
}

// A wait for the push of this ticket, which was made or not.
pub fn wait_one_check(state: &StateWords, i: u32, ticket: u32, made: bool) -> u32
    ensures { result ≡ wait_check (state_in state.now) (one i ticket made) }
{
    let here = present(state, i);
    let waits = is_queued(state, i, (ticket as usize) + 1);
    let never = refuse_if(!made, NEVER_PUSHED, 0);
    refuse_if(!here, ID_ABSENT, refuse_if(waits, STILL_QUEUED, never))
}
