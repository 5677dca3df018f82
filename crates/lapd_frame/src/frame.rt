ghost use Rattle.std.specs.Prelude.{◌≡◌, ◌++◌, ◌+◌, ◌≤◌, length, take, drop, IfOk, IfErr, Ok, Err, Some, None, option_map, ℕ};
ghost use Rattle.std.specs.Result.{result_err};
ghost use Rattle.arrayvec.specs.ArrayVec.{array_vec_len};
ghost use Rattle.lapd_field.specs.Control.{IsControl, control_octets};
ghost use Rattle.lapd_frame.specs.Frame.{Fields, IsFrame, content_fault, frame_of, spelling};
ghost use Rattle.lapd_frame.specs.Reading.{frame_at, first_fault, frame_of_fields, address_of};

use crate::{FaultKind, FrameFault};
use arrayvec::ArrayVec;
use lapd_field::{Address, Control, FieldFault, Role, Side};
use std::marker::Model;

/// N201, the greatest number of octets of information in a frame (Q.921 5.9.3).
pub const N201: usize = 260;

/// The greatest length of a frame, in octets: two of address, two of control field and N201 of
/// information.
pub const MOST_OCTETS: usize = 4 + N201;

/// A frame in the grammar of Q.921 clause 3. It borrows its information.
#[derive(Debug, Drop)]
pub struct Frame<'a> {
    address: Address,
    control: Control,
    info: &'a [u8],
}

impl<'a> Model for Frame<'a> {
    ghost use Rattle.std.specs.Prelude.{◌≡◌, None, length};
    ghost use Rattle.lapd_frame.specs.Frame.{Fields, content_fault};

    ghost Value = { Fields };

    ghost view = { λ f. record { address = f.address; control = f.control; info = f.info.now } };

    ghost invariant = { λ f. content_fault f.address.role f.control (length f.info.now) ≡ None };
}

impl<'a> Frame<'a> {
    /// Makes the frame with these parts, or returns the first of F4 to F7 that they have.
    pub fn new(address: Address, control: Control, info: &'a [u8]) -> Result<Frame<'a>, FaultKind>
        ensures { result ≡ frame_of address control info.now
            (content_fault address.role control (length info.now)) }
    {
        match content_fault(address.role, &control, info.len()) {
            Some(fault) => Err(fault),
            None => Ok(Frame {
                address,
                control,
                info,
            }),
        }
    }

    /// Its address.
    pub fn address(&self) -> Address
        ensures { result ≡ self.now.address }
    {
        self.address
    }

    /// Its control field.
    pub fn control(&self) -> Control
        ensures { result ≡ self.now.control }
    {
        self.control
    }

    /// Its information, empty if it has none.
    pub fn info(&self) -> &'a [u8]
        ensures { result.now ≡ self.now.info }
    {
        self.info
    }
}

/// Reads the frame in `octets`, which `from` sent. The frame borrows its information from them.
///
/// Returns the first fault if the octets do not form a valid frame. F4 to F7 carry the address, F1
/// to F3 do not.
#[inline(always)]
pub fn read(octets: &[u8], from: Side) -> Result<Frame<'_>, FrameFault>
    // A frame that is read is in the grammar and was spelled so, and each spelled frame is read.
    ensures found { IfOk result (λ f. IsFrame f × (octets.now ≡ spelling from f)) }
    ensures only { (f : Fields) → IsFrame f → octets.now ≡ spelling from f → result ≡ Ok f }

    // Which fault is returned, and for which link.
    ensures order { option_map (λ e. e.kind) (result_err result) ≡ first_fault from octets.now }
    ensures address { IfErr result (λ e. e.address ≡ address_of from octets.now e.kind) }
    ensures exact { result ≡ frame_at from octets.now }
{
    frame_at(octets, from)
}

/// Writes the frame, as `from` sends it, to the front of `out`, and returns its length in octets, 3
/// to 264. The octets of `out` after the frame are unchanged.
pub fn write(frame: &Frame<'_>, from: Side, out: &mut [u8; MOST_OCTETS]) -> usize
    ensures written { out.new ≡ spelling from frame.now ++ drop result out.old }
    ensures len { result ≡ length (spelling from frame.now) }
    ensures at_most { result ≤ MOST_OCTETS }
    ensures grammar { IsFrame frame.now }
{
    let address = frame.address.write(from);
    put(out, 0, &address);
    let behind = 2 + put_control(out, &frame.control);
    put(out, behind, frame.info);
    behind + frame.info.len()
}

/// As [`write`], but it does not keep the octets after the frame.
#[inline(always)]
pub fn write_over(frame: &Frame<'_>, from: Side, out: &mut ArrayVec<u8, MOST_OCTETS>)
    ensures written { out.new.items ≡ spelling from frame.now }
    ensures grammar { IsFrame frame.now }
{
    out.clear();
    append_fields(
        out,
        frame.address.write(from),
        frame.control.write().as_slice(),
    );
    if !frame.info.is_empty() {
        append(out, frame.info);
    }
}

/// Appends an address and a control field to `out`.
#[inline(always)]
fn append_fields(out: &mut ArrayVec<u8, MOST_OCTETS>, address: [u8; 2], control: &[u8])
    requires { array_vec_len out.old + 2 + length control.now ≤ MOST_OCTETS }
    ensures items { out.new.items ≡ out.old.items ++ address ++ control.now }
    ensures len { array_vec_len out.new ≡ array_vec_len out.old + 2 + length control.now }
{
    let [first, second] = address;
    match control {
        [third, fourth] => append(out, &[first, second, *third, *fourth]),
        _ => {
            append(out, &address);
            append(out, control);
        }
    }
}

/// Appends octets to `out`.
#[inline(always)]
fn append(out: &mut ArrayVec<u8, MOST_OCTETS>, octets: &[u8])
    requires { array_vec_len out.old + length octets.now ≤ MOST_OCTETS }
    ensures items { out.new.items ≡ out.old.items ++ octets.now }
    ensures len { array_vec_len out.new ≡ array_vec_len out.old + length octets.now }
{
    let Ok(()) = out.try_extend_from_slice(octets) else {
        unreachable!()
    };
}

/// Writes a control field at the third octet of `out`, and returns its length in octets.
fn put_control(out: &mut [u8; MOST_OCTETS], control: &Control) -> usize
    ensures written { out.new ≡ take 2 out.old ++ control_octets control.now
        ++ drop (2 + result) out.old }
    ensures len { result ≡ length (control_octets control.now) }
    ensures at_most { result ≤ 2 }
    ensures grammar { IsControl control.now }
{
    let octets = control.write();
    match octets.as_slice() {
        [first, second] => put(out, 2, &[*first, *second]),
        other => put(out, 2, other),
    }
    octets.len()
}

/// The frame of these octets.
#[inline(always)]
fn frame_at(octets: &[u8], from: Side) -> Result<Frame<'_>, FrameFault>
    ensures exact { result ≡ frame_at from octets.now }
    ensures found { IfOk result (λ f. IsFrame f × (octets.now ≡ spelling from f)) }
{
    match octets {
        [first, second, _, ..] => {
            let field = &octets[2..];
            frame_of_fields(
                Address::read([*first, *second], from),
                Control::read(field),
                field,
            )
        }
        _ => Err(fault_for_no_link(FaultKind::TooShort)),
    }
}

/// The frame of an address field and the control field after it, which takes some of `octets`. A
/// fault of the address field is returned before a fault of the control field, and decides whether
/// the octets are for a link.
fn frame_of_fields(
    address: Result<Address, FieldFault>,
    control: Result<(Control, usize), FieldFault>,
    octets: &[u8],
) -> Result<Frame<'_>, FrameFault>
    requires { IfOk control (λ c. c.1 ≤ length octets.now) }
    ensures { result ≡ frame_of_fields address control octets.now }
{
    match (address, control) {
        (Err(FieldFault::BadAddress), _) => Err(fault_for_no_link(FaultKind::BadAddress)),
        (_, Err(FieldFault::TooShort)) => Err(fault_for_no_link(FaultKind::TooShort)),
        (Err(_), _) => Err(fault_for_no_link(FaultKind::SapiNotServed)),
        (Ok(address), Err(_)) => Err(fault_for_link(FaultKind::Undefined, address)),
        (Ok(address), Ok((control, taken))) => {
            let link = address;
            match Frame::new(address, control, &octets[taken..]) {
                Ok(frame) => Ok(frame),
                Err(kind) => Err(fault_for_link(kind, link)),
            }
        }
    }
}

/// A fault of octets for no link.
fn fault_for_no_link(kind: FaultKind) -> FrameFault
    ensures { result ≡ record { kind = kind; address = None } }
{
    FrameFault {
        kind,
        address: None,
    }
}

/// A fault of octets for the link with this address.
fn fault_for_link(kind: FaultKind, address: Address) -> FrameFault
    ensures { result ≡ record { kind = kind; address = Some address } }
{
    FrameFault {
        kind,
        address: Some(address),
    }
}

/// Writes octets at this place of `out`.
fn put(out: &mut [u8; MOST_OCTETS], at: usize, octets: &[u8])
    requires { at + length octets.now ≤ MOST_OCTETS }
    ensures { out.new ≡ take at out.old ++ octets.now ++ drop (at + length octets.now) out.old }
{
    if !octets.is_empty() {
        out[at..at + octets.len()].copy_from_slice(octets);
    }
}

/// The fault of a frame with this role, control field and `len` octets of information, by the
/// control table.
fn content_fault(role: Role, control: &Control, len: usize) -> Option<FaultKind>
    ensures { result ≡ content_fault role control.now len }
{
    let undefined = Some(FaultKind::Undefined);
    match (role, *control) {
        (_, Control::Rr { .. } | Control::Rnr { .. } | Control::Rej { .. }) => {
            (len > 0).then_some(FaultKind::WrongSize)
        }
        (_, Control::Xid { .. }) => (len > N201).then_some(FaultKind::InfoTooLong),
        (Role::Command, Control::I { .. } | Control::Ui { .. }) => {
            (len > N201).then_some(FaultKind::InfoTooLong)
        }
        (Role::Command, Control::Sabme { .. } | Control::Disc { .. }) => {
            (len > 0).then_some(FaultKind::InfoNotPermitted)
        }
        (Role::Answer, Control::Dm { .. } | Control::Ua { .. }) => {
            (len > 0).then_some(FaultKind::InfoNotPermitted)
        }
        (Role::Answer, Control::Frmr { .. }) => (len != 5).then_some(FaultKind::WrongSize),
        _ => undefined,
    }
}
