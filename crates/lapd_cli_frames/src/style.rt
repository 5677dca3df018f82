ghost use Rattle.std.specs.Prelude.{◌≡◌, ◌++◌, IfOk, OnOk};
ghost use Rattle.std.specs.String.{string_bytes};
ghost use Rattle.lapd_cli_frames.specs.Style.{has_names, marked, styled_packet, styled_text};

use crate::shown::push_brief;
use lapd_cli_render::Packet;
use lapd_frame::Side;
use std::alloc::{AllocError, Global};

/// How a frame is printed.
#[derive(Clone, Copy)]
pub enum Style {
    /// As its trace line.
    Plain,
    /// As its trace line, followed by the name of its message.
    Named,
    /// The same without the octets of its information.
    Brief,
    /// As a JSON object.
    Json,
    /// As a JSON object with the name of its message.
    NamedJson,
}

impl Style {
    /// Whether the message in a frame is named.
    pub(crate) fn has_names(self) -> bool
        ensures { result ≡ has_names self }
    {
        match self {
            Style::Plain | Style::Json => false,
            Style::Named | Style::Brief | Style::NamedJson => true,
        }
    }

    /// The line for octets that `from` sent.
    ///
    /// # Errors
    ///
    /// `AllocError` if an allocation fails.
    pub(crate) fn text(self, alloc: Global, from: Side, octets: &[u8]) -> Result<String, AllocError>
        ensures { IfOk result (λ text. string_bytes text ≡ styled_text self from octets.now) }
    {
        match self {
            Style::Plain => lapd_trace::line(alloc, from, octets),
            Style::Named => named_line(alloc, from, octets),
            Style::Brief => brief_line(alloc, from, octets),
            Style::Json => lapd_cli_render::line(alloc, from, octets),
            Style::NamedJson => lapd_cli_render::named_line(alloc, from, octets),
        }
    }

    /// Replaces `line` with the text for octets that `from` sent, so that one text serves many
    /// lines.
    ///
    /// # Errors
    ///
    /// `AllocError` if an allocation fails.
    pub fn write(
        self,
        alloc: Global,
        from: Side,
        octets: &[u8],
        line: &mut String,
    ) -> Result<(), AllocError>
        ensures { OnOk result (string_bytes line.new ≡ styled_text self from octets.now) }
    {
        match self {
            Style::Plain => {
                line.clear();
                lapd_trace::push_line(alloc, line, from, octets)
            }
            Style::Named | Style::Brief | Style::Json | Style::NamedJson => {
                *line = self.text(alloc, from, octets)?;
                Ok(())
            }
        }
    }

    /// The same as [`Style::write`] for octets in a packet of a capture. The text is marked if the
    /// packet was cut.
    ///
    /// # Errors
    ///
    /// `AllocError` if an allocation fails.
    pub(crate) fn write_packet(
        self,
        alloc: Global,
        from: Side,
        octets: &[u8],
        packet: Packet,
        line: &mut String,
    ) -> Result<(), AllocError>
        ensures { OnOk result (string_bytes line.new
            ≡ styled_packet self packet from octets.now) }
    {
        match self {
            Style::Plain | Style::Named | Style::Brief => {
                self.write(alloc, from, octets, line)?;
                mark_cut(line, packet.is_cut)
            }
            Style::Json => {
                *line = lapd_cli_render::packet_line(alloc, from, octets, packet)?;
                Ok(())
            }
            Style::NamedJson => {
                *line = lapd_cli_render::named_packet_line(alloc, from, octets, packet)?;
                Ok(())
            }
        }
    }
}

/// Appends a mark to a line if only the first of its octets were captured.
///
/// # Errors
///
/// `AllocError` if an allocation fails.
pub(crate) fn mark_cut(line: &mut String, is_cut: bool) -> Result<(), AllocError>
    ensures { OnOk result (string_bytes line.new ≡ marked is_cut (string_bytes line.old)) }
{
    if is_cut {
        line.push_str(" [cut]")
    } else {
        Ok(())
    }
}

/// The trace line for octets that `from` sent, followed by the name of their message.
fn named_line(alloc: Global, from: Side, octets: &[u8]) -> Result<String, AllocError>
    ensures { IfOk result (λ text. string_bytes text ≡ styled_text Style.Named from octets.now) }
{
    let mut text = lapd_trace::line(alloc, from, octets)?;
    lapd_cli_render::push_names(&mut text, from, octets)?;
    Ok(text)
}

/// The trace line for octets that `from` sent, without the octets of their information, followed by
/// the name of their message.
fn brief_line(alloc: Global, from: Side, octets: &[u8]) -> Result<String, AllocError>
    ensures { IfOk result (λ text. string_bytes text ≡ styled_text Style.Brief from octets.now) }
{
    let mut text = String::new(alloc);
    let reading = lapd_frame::read(octets, from);
    push_brief(alloc, &mut text, Some(from), octets, &reading)?;
    lapd_cli_render::push_names(&mut text, from, octets)?;
    Ok(text)
}
