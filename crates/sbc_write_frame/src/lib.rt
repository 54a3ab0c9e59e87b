// What is coded of a frame, as the frame's bytes: header, checksum and body.
#![tactic(auto)]

ghost use Rattle.std.specs.Prelude.{◌≡◌, ◌+◌, ◌-◌, length};
ghost use Rattle.sbc_parameters.specs.Sizes.{frame_length};
ghost use Rattle.sbc_frame.specs.Layout.{filled};
ghost use Rattle.sbc_write_frame.specs.Framing.{coding_bits, coding_bytes};

use sbc_allocation::allocate;
use sbc_frame::{BlockCount, CodedFrame, Quantization};
use sbc_parameters::AcceptedSet;
use sbc_write::BodyWriter;

// The body of a frame, behind its header and checksum.
fn write_body(accepted: AcceptedSet, body: &mut [u8], coding: &CodedFrame)
    requires { length body.old + 4 ≡ frame_length accepted.set }
    ensures { let p = accepted.set in let k = coding.now in
        body.new ≡ filled (frame_length p - 4) (coding_bits p k.flags k.factors.rows k.samples) }
{
    let set = accepted.set;
    let joins = set.join_count();
    let subbands = usize::from(set.subbands);
    let others = subbands * (usize::from(set.channels()) - 1);
    let factors = coding.factors.rows;
    // Kept: row by row, so that a row in the place of the other is refused by a fact.
    let widths = allocate(set, [factors[0], factors[1]]);
    let quantizations = [
        Quantization {
            widths: widths[0],
            factors: factors[0],
        },
        Quantization {
            widths: widths[1],
            factors: factors[1],
        },
    ];
    let mut writer = BodyWriter::new(body);
    writer.put_row(&coding.flags[..joins], 1);
    writer.put_row(&factors[0][..subbands], 4);
    writer.put_row(&factors[1][..others], 4);
    writer.put_values(&coding.samples, &quantizations, BlockCount::from(accepted));
    writer.finish();
}

// A frame: header, checksum, body. The checksum does not look at its own byte.
pub fn write_frame(accepted: AcceptedSet, frame: &mut [u8], coding: &CodedFrame)
    requires { length frame.old ≡ frame_length accepted.set }
    ensures { let k = coding.now in frame.new ≡ coding_bytes accepted.set k.flags k.factors.rows k.samples }
{
    let set = accepted.set;
    let header = set.header();
    frame[..3].copy_from_slice(&header);
    write_body(accepted, &mut frame[4..], coding);
    let side_bits = set.side_bits();
    frame[3] = crc8::checksum(frame, side_bits);
}
