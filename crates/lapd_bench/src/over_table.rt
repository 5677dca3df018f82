//! Frames for the links of a [`LinkTable`], and their responses.

ghost use Rattle.std.specs.Prelude.{◌≢◌, ◌<◌, IfOk};

use crate::bench_fault::BenchFault;
use crate::done::Done;
use lapd_frame::{Frame, MOST_OCTETS, Sapi, Side, Tei, write};
use lapd_link::{Link, Out, Outs, Params};
use lapd_table::{LinkId, LinkTable};
use std::alloc::Global;

/// An enquiry of the user, RR with P=1, whose N(R) is 0.
type Enquiry = [u8; 4];

/// Passes this many enquiries, one after another to each of this many established links, and writes
/// their responses.
///
/// # Errors
///
/// `Memory`, `CommandLine` for no links or more than 254, and `Table` if a frame is refused.
pub fn answer(alloc: Global, links: u32, frames: u32) -> Result<Done, BenchFault> {
    let mut enquiries: Vec<Enquiry> = Vec::with_capacity(alloc, links as usize)?;
    let mut table = LinkTable::new(alloc, Side::Network);
    add_and_answer(alloc, &mut table, &mut enquiries, links, frames)
}

/// Adds this many links to a table, and answers this many enquiries for them.
fn add_and_answer(
    alloc: Global,
    table: &mut LinkTable,
    enquiries: &mut Vec<Enquiry>,
    links: u32,
    frames: u32,
) -> Result<Done, BenchFault> {
    for number in 0..links {
        let enquiry = add_link(alloc, table, number)?;
        if enquiries.push(enquiry).is_err() {
            return Err(BenchFault::Memory);
        }
    }
    Ok(Done {
        given: u64::from(frames),
        received: answer_each(table, enquiries.as_slice(), frames)?,
        acknowledged: 0,
    })
}

/// Adds the link with this number, established, and returns the enquiry for it.
fn add_link(alloc: Global, table: &mut LinkTable, number: u32) -> Result<Enquiry, BenchFault> {
    let id = id_of(number)?;
    let enquiry = [id.sapi.value() * 4, id.tei.value() * 2 + 1, 0x01, 0x01];
    add_established(alloc, table, id)?;
    Ok(enquiry)
}

/// Passes this many enquiries, in the order of these, repeatedly. Returns how many frames respond.
fn answer_each(
    table: &mut LinkTable,
    enquiries: &[Enquiry],
    frames: u32,
) -> Result<u64, BenchFault> {
    let mut outs = Outs::new();
    let mut octets = [0; MOST_OCTETS];
    let mut answered: u64 = 0;
    let mut at: usize = 0;
    for _ in 0..frames {
        if at >= enquiries.len() {
            at = 0;
        }
        let Some(enquiry) = enquiries.get(at) else {
            return Err(BenchFault::CommandLine);
        };
        at = at.wrapping_add(1);
        let sent = reply(table, enquiry, &mut outs, &mut octets)?;
        answered = answered.wrapping_add(sent);
    }
    Ok(answered)
}

/// Passes a frame, and writes the response of its link. Returns how many frames respond.
fn reply(
    table: &mut LinkTable,
    bytes: &[u8],
    outs: &mut Outs,
    octets: &mut [u8; MOST_OCTETS],
) -> Result<u64, BenchFault> {
    let id = table.dispatch_into(bytes, outs)?;
    let mut sent: u64 = 0;
    for out in outs.as_slice() {
        if let Out::Send(role, control) = out {
            match Frame::new(id.address(*role), *control, &[]) {
                Ok(frame) => {
                    let _len = write(&frame, Side::Network, octets);
                    sent = sent.wrapping_add(1);
                }
                Err(_) => return Err(BenchFault::NoFrame),
            }
        }
    }
    Ok(sent)
}

/// The link with this number: TEIs 0 to 126 of service access point 0, then those of 16.
fn id_of(number: u32) -> Result<LinkId, BenchFault>
    ensures { IfOk result (λ id. (id.sapi ≢ Sapi.Management) × (id.tei < 127)) }
{
    let sapi = if number < 127 {
        Sapi::Call
    } else {
        Sapi::Packet
    };
    match Tei::new((number % 127) as u8) {
        Some(tei) if number < 254 => Ok(LinkId { sapi, tei }),
        _ => Err(BenchFault::CommandLine),
    }
}

/// Adds a link of the network side, established by the user.
fn add_established(alloc: Global, table: &mut LinkTable, id: LinkId) -> Result<(), BenchFault>
    requires { (id.sapi ≢ Sapi.Management) × (id.tei < 127) }
{
    let link = Link::new(alloc, table.side(), id.sapi, id.tei, Params::primary())?;
    match table.add(link) {
        Ok(()) => establish(table, id),
        Err(_) => Err(BenchFault::Table),
    }
}

/// The user establishes this link.
fn establish(table: &mut LinkTable, id: LinkId) -> Result<(), BenchFault>
    requires { (id.sapi ≢ Sapi.Management) × (id.tei < 127) }
{
    let mut outs = Outs::new();
    let sabme = [id.sapi.value() * 4, id.tei.value() * 2 + 1, 0x7f];
    let _id = table.dispatch_into(&sabme, &mut outs)?;
    Ok(())
}
