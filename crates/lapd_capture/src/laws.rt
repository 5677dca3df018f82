//! Laws of captures, over their definitions. Calling them has no effect.

ghost use Rattle.std.specs.Prelude.{◌≡◌, ◌≤◌, ◌+◌, ◌++◌, ℕ, List, [], Option, None, Some, Ok, length};
ghost use Rattle.lapd_field.specs.declared.side.Side.{Side};
ghost use Rattle.lapd_capture.specs.declared.item.CaptureItem.TheVariants.{Frame};
ghost use Rattle.lapd_capture.specs.ReadBack.{LineFrame, line_packet, line_reading, line_span, read_moment};
ghost use Rattle.lapd_capture.specs.Reading.{next_step, opened};
ghost use Rattle.lapd_capture.specs.Written.{file_octets, record_octets};

/// A written capture is read back: the head of the file, and each record. The frame of a record is
/// found in its packet with its sender, and with its moment if its seconds since 1970 have 32 bits.
pub fn written_is_read()
    ensures head { (left : List ℕ)
        → opened (file_octets ++ left) ≡ Ok (line_reading 24 0 None [] left) }
    ensures next { (own : Side) (frame : LineFrame) (place packets : ℕ) (moment : Option ℕ)
        (body left : List ℕ) → length frame.octets ≤ 265
        → next_step (line_reading place packets moment body
        (record_octets own frame.from frame.moment frame.octets ++ left)) ≡ Ok (record {
          item = Frame (line_span frame);
          reading = line_reading (place + (32 + length frame.octets)) (packets + 1)
              (Some (read_moment frame.moment)) (line_packet own frame) left;
        }) }
{}
