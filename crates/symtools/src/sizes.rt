//! The lines of size.
ghost use Rattle.std.specs.Prelude.{◌≡◌, ◌++◌, ◌∷◌, [], false, if◌then◌else◌, codes, IfErr};
ghost use Rattle.aout_core.specs.{Wires.Writes, Refusals.device_fault};
ghost use Rattle.symtools.specs.{Files.by_bytes, SizeLines.{size_line, size_text}, declared.fault.ToolFault.TheVariants.Device};

use crate::buffer::LineBuffer;
use crate::fault::ToolFault;
use crate::heading::put_heading;
use aout_core::{DeviceFault, File, Header, Wire};
use std::io::Write;

/// Writes a line for each file: the sizes of text, data and bss in bytes, and their sum in decimal and in octal, as
/// `4+2+2 = 8b = 010b`. With several files, the line begins with the file's path and `: `.
///
/// It takes no memory. Its only error is `Device`, 2: the device failed, in this call or before it.
pub fn size<W: Write>(files: &[(String, File)], out: &mut Wire<W>) -> Result<(), ToolFault>
    ensures written { Writes W.contents result out.old out.new (size_text (by_bytes files.now)) }
    ensures device { IfErr result (λ e. e ≡ Device device_fault) }
{
    out.working()?;
    let is_named = files.len() > 1;
    for (path, file) in files {
        put_size(path, file.header(), is_named, out)?;
    }
    Ok(())
}

fn put_size<W: Write>(
    path: &str,
    header: &Header,
    is_named: bool,
    out: &mut Wire<W>,
) -> Result<(), DeviceFault>
    requires { out.old.has_failed ≡ false }
    ensures { Writes W.contents result out.old out.new
        ((if is_named then path.now ++ codes ": " else []) ++ size_line header.now ++ 10 ∷ []) }
{
    put_heading(is_named, path, b": ", out)?;
    let text = size_line(header);
    out.put(text.as_bytes())
}

/// The line of one file, as `size` writes it without a path.
pub fn size_line(header: &Header) -> LineBuffer
    ensures { result ≡ size_line header.now ++ 10 ∷ [] }
{
    let sizes = [header.text_size, header.data_size, header.bss_size].map(u32::from);
    let [text, data, bss] = sizes;
    let sum = text + data + bss;
    let mut line = LineBuffer::new();
    line.push_decimal(header.text_size);
    line.push(b"+");
    line.push_decimal(header.data_size);
    line.push(b"+");
    line.push_decimal(header.bss_size);
    line.push(b" = ");
    line.push_sum(sum);
    line.push(b"b = 0");
    line.push_octal(sum);
    line.push(b"b\n");
    line
}
