//! Receiver channels for GPS L1 C/A and its LNAV message, in one crate. Samples go in as bytes, and
//! typed events come out: counts, acquisitions, lock changes, subframes, pages and almanacs.
//!
//! A `Receiver` has the slots of one to eight clients over one recording. `take` takes packed
//! samples from the front of bytes, however they are cut, and `events` has what the slots emit with
//! them. Each client's events are proved to be those of a receiver with that client alone. A
//! `Packing` makes packed samples of a recording's values, which come in pieces too.
//!
//!     use seldomplough::{Doppler, Event, Format, HalfChip, Prn, Receiver};
//!     use seldomplough::{Settings, Signal, SlotNo};
//!
//!     // One client, with four slots. Its first slot tracks satellite 5.
//!     let settings = Settings::new(2_046_000, 511_500, Format::Real1)?;
//!     let mut receiver = Receiver::open(rt.alloc(), settings, &[4])?;
//!     let slot = SlotNo::new(0).ok_or("no slot")?;
//!     let signal = Signal {
//!         prn: Prn::new(5).ok_or("no satellite")?,
//!         doppler: Doppler::new(1_250).ok_or("no shift")?,
//!         half: HalfChip::new(700).ok_or("no half chip")?,
//!     };
//!     receiver.track(1, slot, signal)?;
//!     receiver.counts(1, slot, 5)?;
//!     let mut sums = 0;
//!     let bytes = [0x5a; 1_000];
//!     let mut rest: &[u8] = &bytes;
//!     while !rest.is_empty() {
//!         rest = receiver.take(rest)?;
//!         for emitted in receiver.events() {
//!             if let Event::Count(counts) = emitted.event {
//!                 sums += counts.ip;
//!             }
//!         }
//!     }
//!     assert!(sums.unsigned_abs() < 8_000);
#![tactic(auto)]

mod packing;
mod packing_fault;
mod receiver;
mod too_many_samples;
pub mod units;
mod values;

pub use acquisition::{Cell, Plan, PlanFault, Search, SearchRoom, Signal};
pub use bit_sync::{BitNews, BitSync};
pub use ca_codes::{CodeBook, Prn, PrnFault};
pub use channel_slots::{MOST_CLIENTS, MOST_TIME, OpenFault};
pub use data_sets::{AlmanacSet, DataSets, Report, Reports};
pub use frame_sync::{Found, FrameSync, Subframe};
pub use lane_correlator::Counts;
pub use nav_message::{Message, MessageNews};
pub use nav_parity::{check, encode};
pub use oscillators::{Doppler, HalfChip, Settings, SettingsFault};
pub use packing::Packing;
pub use packing_fault::PackingFault;
pub use receiver::Receiver;
pub use recordings::{Choice, ChoiceFault, MOST_PIECE, Recipe, ValueKind};
pub use sample_planes::{Format, MAX_SAMPLES, NumberedSamples, PackedSamples};
pub use slot_protocol::{
    Answer, Command, Event, MOST_SLOTS, Phase, Refusal, SlotEvent, SlotNo, SlotState,
};
pub use std::alloc::Global;
pub use subframes::{
    AlmanacField, ClockField, Eph2Field, Eph3Field, Field, HealthField, Page, UtcField, field,
};
pub use too_many_samples::TooManySamples;
