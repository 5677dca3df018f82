//! Who sent a frame, by its kind and its C/R bit.

ghost use Rattle.std.specs.Prelude.{◌≡◌};
ghost use Rattle.lapd_field.specs.Address.{is_badly_extended};
ghost use Rattle.lapd_follow.specs.Senders.{are_different, is_other, is_of_other_side, role_by_kind, sender_by_kind, sender_of_control, sender_of_role};

use lapd_frame::{Control, FieldFault, Role, Side};

/// The only side that may have sent these octets, if their kind and C/R bit name it.
pub fn sender_by_kind(octets: &[u8]) -> Option<Side>
    ensures { result ≡ sender_by_kind octets.now }
{
    match octets {
        [] | [_] => None,
        [first, second, control @ ..] => {
            if is_badly_extended(*first, *second) {
                return None;
            }
            sender_of_control(*first / 2 % 2 == 1, Control::read(control))
        }
    }
}

/// Whether an extension bit of an address is wrong (Q.921 3.3.1).
fn is_badly_extended(first: u8, second: u8) -> bool
    ensures { result ≡ is_badly_extended first second }
{
    first % 2 == 1 || second % 2 == 0
}

/// The only side that sends this control field with this C/R bit.
fn sender_of_control(bit: bool, read: Result<(Control, usize), FieldFault>) -> Option<Side>
    ensures { result ≡ sender_of_control bit read }
{
    match read {
        Err(_) => None,
        Ok(found) => match role_by_kind(found.0) {
            None => None,
            Some(role) => Some(sender_of_role(bit, role)),
        },
    }
}

/// The only role that a frame of this kind has, if it does not have both.
fn role_by_kind(control: Control) -> Option<Role>
    ensures { result ≡ role_by_kind control }
{
    match control {
        Control::I { .. } | Control::Sabme { .. } | Control::Ui { .. } | Control::Disc { .. } => {
            Some(Role::Command)
        }
        Control::Dm { .. } | Control::Ua { .. } | Control::Frmr { .. } => Some(Role::Answer),
        Control::Rr { .. } | Control::Rnr { .. } | Control::Rej { .. } | Control::Xid { .. } =>
            None,
    }
}

/// Who sends this role with this C/R bit (Q.921 3.3.2).
fn sender_of_role(bit: bool, role: Role) -> Side
    ensures { result ≡ sender_of_role bit role }
{
    match (role, bit) {
        (Role::Command, true) | (Role::Answer, false) => Side::Network,
        (Role::Command, false) | (Role::Answer, true) => Side::User,
    }
}

/// Whether only the other side may have sent these octets, by their kind and C/R bit.
pub(crate) fn is_of_other_side(sender: Side, octets: &[u8]) -> bool
    ensures { result ≡ is_of_other_side sender octets.now }
{
    is_other(sender, sender_by_kind(octets))
}

/// Whether this is the other side.
fn is_other(sender: Side, named: Option<Side>) -> bool
    ensures { result ≡ is_other sender named }
{
    match named {
        None => false,
        Some(side) => are_different(sender, side),
    }
}

/// Whether the sides are not the same one.
fn are_different(one: Side, another: Side) -> bool
    ensures { result ≡ are_different one another }
{
    match (one, another) {
        (Side::User, Side::User) | (Side::Network, Side::Network) => false,
        (Side::User, Side::Network) | (Side::Network, Side::User) => true,
    }
}
