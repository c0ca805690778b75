//! The shares of the slots that the options ask for.

ghost use Rattle.std.specs.Prelude.{◌≡◌, IfOk, IfErr, Some, None, ◌⊎◌, replicate};
ghost use Rattle.receiver_options.specs.CommandLines.{options_in};
ghost use Rattle.receiver_options.specs.Requests.{asked_in, shares_by};

use crate::asked::text;
use crate::fault::OptionFault;
use clap::ArgMatches;
use std::alloc::Global;

/// The share of the slots of each client: a digit from 1 to 8 for each, or four slots each where
/// the option isn't there.
pub fn shares(alloc: Global, matches: &ArgMatches, clients: usize) -> Result<Vec<u8>, OptionFault>
    ensures given { IfOk result (λ shares.
        shares_by clients (asked_in (options_in matches.now)).shares ≡ Some shares.items) }
    ensures fault { IfErr result (λ fault. (fault ≡ OptionFault.NoMemory)
        ⊎ ((fault ≡ OptionFault.Shares)
        × (shares_by clients (asked_in (options_in matches.now)).shares ≡ None))) }
{
    match text(matches, "shares") {
        Some(digits) => shares_of(alloc, digits.as_bytes(), clients),
        None => four_each(alloc, clients),
    }
}

/// The shares that digits write: one digit, 1 to 8, for each client.
fn shares_of(alloc: Global, digits: &[u8], clients: usize) -> Result<Vec<u8>, OptionFault>
    ensures given { IfOk result (λ shares.
        shares_by clients (Some digits.now) ≡ Some shares.items) }
    ensures fault { IfErr result (λ fault. (fault ≡ OptionFault.NoMemory)
        ⊎ ((fault ≡ OptionFault.Shares) × (shares_by clients (Some digits.now) ≡ None))) }
{
    let mut shares = Vec::new(alloc);
    for digit in digits {
        if !(b'1'..=b'8').contains(digit) {
            return Err(OptionFault::Shares);
        }
        shares.push(*digit - b'0')?;
    }
    if shares.len() == clients {
        Ok(shares)
    } else {
        Err(OptionFault::Shares)
    }
}

/// Shares of four slots.
fn four_each(alloc: Global, clients: usize) -> Result<Vec<u8>, OptionFault>
    ensures given { IfOk result (λ shares. replicate clients 4 ≡ shares.items) }
    ensures fault { IfErr result (λ fault. fault ≡ OptionFault.NoMemory) }
{
    let mut shares = Vec::new(alloc);
    for _ in 0..clients {
        shares.push(4)?;
    }
    Ok(shares)
}
