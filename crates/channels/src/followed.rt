//! A satellite that is followed, at a fixed Doppler shift or as its loops steer it.

ghost use Rattle.std.specs.Prelude.{◌≡◌, ◌≤◌, ◌<◌, ◌+◌, min};
ghost use Rattle.std.specs.Option.{ForSome};
ghost use Rattle.channels.specs.Trackings.{dump_count};
ghost use Rattle.channels.specs.declared.follower.TheConstants.{MOST_TAKEN};
ghost use Rattle.sample_planes.specs.declared.planes.TheConstants.{MOST_TIME};

use crate::follower::Follower;
use crate::shift::shift_of;
use crate::tracking::Tracking;
use crate::window::Window;
use acquisition::Signal;
use ca_codes::{CodeBook, Prn};
use oscillators::Settings;

/// A satellite that is followed, and the number of its dumps. Where loops steer it, each dump goes
/// to them, and their shift sets the steps of the next segment; else it goes on at the Doppler
/// shift at which it began. It stands for its channel and the samples so far.
#[derive(Debug, Drop)]
pub struct Followed {
    follower: Follower,
    dumps: u64,
    tracking: Option<Tracking>,
    ghost counted: { ForSome tracking (λ s. dump_count s ≡ dumps) },
    ghost few: { dumps ≤ follower.at },
}

impl Followed {
    ghost use Rattle.std.specs.Prelude.{List, ◌++◌, length, true, false, ◌↔◌, Some, None};
    ghost use Rattle.std.specs.Prelude.{IfSome, IsNone};
    ghost use Rattle.definitions.specs.Samples.{Sample};
    ghost use Rattle.definitions.specs.Oscillators.{Settings as DefinedSettings};
    ghost use Rattle.definitions.specs.Segments.{Channel};
    ghost use Rattle.definitions.specs.Lives.{held_channel, tracked_channel, doppler_shift};
    ghost use Rattle.channels.specs.Dumps.{dump_if};
    ghost use Rattle.channels.specs.Following.{BeginsAfter};
    ghost use Rattle.channels.specs.FollowedChannels.{Follows, Takes, HasBegun, IsSteeredFrom};
    ghost use Rattle.channels.specs.FollowedChannels.{prn_of, dumps_of, at_of, next_dump};
    ghost use Rattle.channels.specs.FollowedChannels.{chance, tracking_of, is_steered};
    ghost use Rattle.channels.specs.Windows.{IsOver, IsSame, first_of, end_of, dump_of};

    /// Begins at the next sample, which is number `time`, with the code at a half chip of its cycle
    /// and the carrier at 0; `time` is at most `MOST_TAKEN`. It goes on at this Doppler shift.
    #[inline(always)]
    pub fn hold(settings: &Settings, signal: Signal, time: u64) -> Followed
        requires { time ≤ MOST_TAKEN }
        ensures stands { (xs : List Sample) → length xs ≡ time
            → Follows settings.now
            (held_channel (length xs) signal.prn signal.doppler signal.half) xs result }
        ensures begins { HasBegun time false result }
    {
        Followed {
            follower: Follower::start(settings, signal, time, 0),
            dumps: 0,
            tracking: None,
        }
    }

    /// Begins like `hold`, and loops that begin at this Doppler shift steer it.
    #[inline(always)]
    pub fn track(settings: &Settings, signal: Signal, time: u64) -> Followed
        requires { time ≤ MOST_TAKEN }
        ensures stands { (xs : List Sample) → length xs ≡ time
            → Follows settings.now
            (tracked_channel (length xs) signal.prn signal.doppler signal.half) xs result }
        ensures begins { HasBegun time true result }
    {
        Followed::track_after(settings, signal, time, 0)
    }

    /// Begins like `track`. But the code was at the half chip `ago` samples before the next one,
    /// and has gone on since at this shift.
    #[inline(always)]
    pub fn track_after(settings: &Settings, signal: Signal, time: u64, ago: u64) -> Followed
        requires { time ≤ MOST_TAKEN }
        ensures stands { (channel : Channel) (xs : List Sample) → length xs ≡ time
            → BeginsAfter settings.now signal.prn signal.doppler signal.half ago (length xs) channel
            → IsSteeredFrom (doppler_shift signal.doppler) channel
            → Follows settings.now channel xs result }
        ensures begins { HasBegun time true result }
    {
        let tracking = Tracking::start(settings, shift_of(signal.doppler));
        Followed {
            follower: Follower::start(settings, signal, time, ago),
            dumps: 0,
            tracking: Some(tracking),
        }
    }

    /// The satellite that it follows.
    pub fn prn(&self) -> Prn
        ensures { result ≡ prn_of self.now }
    {
        self.follower.prn()
    }

    /// The number of dumps that the satellite has had.
    pub fn dumps(&self) -> u64
        ensures { result ≡ dumps_of self.now }
    {
        self.dumps
    }

    /// The loops that steer it, if any do.
    pub fn tracking(&self) -> Option<&Tracking>
        ensures some { IfSome result (λ s. tracking_of self.now ≡ Some s.now) }
        ensures none { IsNone result → tracking_of self.now ≡ None }
    {
        self.tracking.as_ref()
    }

    /// With how many samples of the recording the next dump comes: those before may wait.
    pub fn next_dump(&self) -> u64
        ensures value { result ≡ next_dump self.now }
        ensures waits { (settings : DefinedSettings) (channel : Channel) (xs ys : List Sample)
            → Follows settings channel xs self.now → length (xs ++ ys) < result
            → Takes settings channel xs ys self.now None }
    {
        self.follower.ends()
    }

    /// Takes the samples of a window up to number `to`, or to the next dump if that comes before.
    /// It answers whether that came: then it is the window's, which else keeps its own. The book is
    /// any book of codes.
    // Else it is inlined whole into the slot, which has no registers left for it.
    #[inline(never)]
    pub fn take(&mut self, to: u64, window: &mut Window, book: &mut CodeBook) -> bool
        requires begun { at_of self.old ≤ to }
        requires early { to ≤ MOST_TIME }
        requires open { first_of window.old ≤ at_of self.old }
        requires taken { to ≤ end_of window.old }
        ensures at { at_of self.new ≡ min to (next_dump self.old) }
        ensures came { (result ≡ true) ↔ (next_dump self.old ≤ to) }
        ensures steered { is_steered self.new ≡ is_steered self.old }
        ensures takes { (settings : DefinedSettings) (channel : Channel) (xs ys : List Sample)
            → length (xs ++ ys) ≡ min to (next_dump self.old) → IsOver (xs ++ ys) window.old
            → Follows settings channel xs self.old
            → Takes settings channel xs ys self.new (dump_if result (dump_of window.new)) }
        ensures chance { result ≡ true → chance self.new + 1 ≤ chance self.old }
        ensures waits { result ≡ false → next_dump self.new ≡ next_dump self.old }
        ensures kept { result ≡ false → dump_of window.new ≡ dump_of window.old }
        ensures same { IsSame window.old window.new }
    {
        let to = to.min(self.follower.ends());
        window.unpack();
        let Some(counts) = self.follower.take(to, window, book) else {
            return false;
        };
        self.dumps += 1;
        match &mut self.tracking {
            None => window.dump.set_plain(counts),
            Some(tracking) => {
                tracking.take(counts, &mut window.dump);
                self.follower
                    .steer(tracking.settings(), tracking.v(), tracking.w());
            }
        }
        true
    }
}
