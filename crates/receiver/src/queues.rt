//! The scripts of all clients, side by side.

ghost use Rattle.std.specs.Prelude.{◌≡◌, ◌≤◌, length, map, true, IfSome, IsNone};
ghost use Rattle.std.specs.List.{AllByRecursion, list_all};
ghost use Rattle.definitions.specs.Receiver.{entries_of};
ghost use Rattle.definitions.specs.Runs.{is_share};
ghost use Rattle.receiver.specs.Clients.{clients_with};
ghost use Rattle.receiver.specs.declared.session.TheConstants.{QUEUES};
ghost use Rattle.receiver.specs.Queues.{TakesDue, NoneDue, left_of, least_gap_of};

use crate::due::Due;
use crate::queue::Queue;
use crate::session::QUEUES;
use arrayvec::ArrayVec;

/// All entries of each script, whose client has the share at its place.
pub fn queues_of<'a>(scripts: &'a [&'a [u8]], shares: &[u8]) -> ArrayVec<Queue<'a>, QUEUES>
    requires few { length scripts.now ≤ QUEUES }
    requires each { length shares.now ≡ length scripts.now }
    requires right { list_all is_share shares.now ≡ true }
    ensures { map left_of result.items
        ≡ map entries_of (clients_with shares.now (map (λ script. script.now) scripts.now)) }
{
    prove!(
        scripts.len() <= QUEUES,
        "queues_of requires scripts.len() <= QUEUES"
    );
    prove!(
        shares.len() == scripts.len(),
        "queues_of requires a share for each script"
    );
    let mut queues = ArrayVec::new();
    for index in 0..scripts.len() {
        queues.push(Queue::new(scripts[index], shares[index]));
    }
    queues
}

/// The samples until the first entry of any client.
pub fn least_gap(queues: &[Queue], now: u64) -> u64
    ensures { result ≡ least_gap_of now queues.now }
{
    let mut least = u64::MAX;
    for queue in queues {
        least = least.min(queue.gap(now));
    }
    least
}

/// Takes the first entry that stands at this time, by client.
pub fn take_due(queues: &mut [Queue], now: u64) -> Option<Due>
    requires { length queues.old ≤ QUEUES }
    ensures some { IfSome result (λ due. TakesDue now 1 queues.old queues.new due) }
    ensures none { IsNone result
        → AllByRecursion (λ queue. NoneDue now (left_of queue)) queues.old }
    ensures kept { IsNone result → queues.new ≡ queues.old }
{
    prove!(
        queues.len() <= QUEUES,
        "take_due requires queues.len() <= QUEUES"
    );
    for index in 0..queues.len() {
        if let Some(timed) = queues[index].take_due(now) {
            return Some(Due {
                client: index as u8 + 1,
                what: timed.what,
            });
        }
    }
    None
}
