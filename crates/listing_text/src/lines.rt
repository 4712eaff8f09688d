// The printed lines of a listing, appended to a string. An error is want of memory.
ghost use Rattle.listing_text.specs.Appends.{Appends};
ghost use Rattle.listing_text.specs.Texts.{decimal, spaced, header_text, label_text, setting_text, end_text, refused_text};

use super::request::Request;
use itoa::Buffer;
use std::alloc::AllocError;

// Appends a number, without leading zeros.
// Kept: pushed and not written by `write!`, which promises nothing of the string after an error, nor success where there is room.
fn push_number(out: &mut String, n: u32) -> Result<(), AllocError>
    ensures text { Appends result out.old (decimal n) out.new }
{
    out.push_str(Buffer::new().format(n))
}

// Appends a space and a number.
fn push_spaced(out: &mut String, n: u32) -> Result<(), AllocError>
    ensures text { Appends result out.old (spaced n) out.new }
{
    out.push_str(" ")?;
    push_number(out, n)
}

// Appends the label number at the front of a row.
pub fn push_label(out: &mut String, number: u32) -> Result<(), AllocError>
    ensures text { Appends result out.old (label_text number) out.new }
{
    push_number(out, number)
}

// Appends one cell of a row: its level and its fine setting.
pub fn push_setting(out: &mut String, level: u8, fine: u16) -> Result<(), AllocError>
    ensures text { Appends result out.old (setting_text level fine) out.new }
{
    push_spaced(out, level as u32)?;
    out.push_str("/")?;
    push_number(out, fine as u32)
}

// Appends the end of a line.
pub fn push_end(out: &mut String) -> Result<(), AllocError>
    ensures text { Appends result out.old end_text out.new }
{
    out.push_str("\n")
}

// Appends the line of a refusal.
// Kept: by its number, which is what the refusal table's format has.
pub fn push_refused(out: &mut String, number: u8) -> Result<(), AllocError>
    ensures text { Appends result out.old (refused_text number) out.new }
{
    out.push_str("refused")?;
    push_spaced(out, number as u32)?;
    push_end(out)
}

impl Request {
    // Appends the line that repeats the request.
    pub fn push_header(&self, out: &mut String) -> Result<(), AllocError>
        ensures text { Appends result out.old (header_text self.now) out.new }
    {
        out.push_str("strip")?;
        let numbers = [
            self.levels,
            self.strength,
            self.factors,
            self.seed,
            self.shuffler,
        ];
        for n in numbers.iter() {
            push_spaced(out, *n)?;
        }
        push_end(out)
    }
}
