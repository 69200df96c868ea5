//! The lines of a picture that are always the same: its colours and letters, its grid, and the page around it.

ghost use Rattle.std.specs.Prelude.{◌≡◌, IfOk};
ghost use Rattle.plan_picture.specs.Fixed.{clock, close, grid_patterns, html_close, html_open, moved_style, style, whole_close, whole_open};

use std::alloc::Global;
use tail_book::Memory;
use tail_text::Line;

/// The line of a text.
pub fn fixed_line(alloc: Global, text: &[u8]) -> Result<Line, Memory>
    ensures { IfOk result (λ line. line ≡ text.now) }
{
    let mut line = Line::new(alloc)?;
    line.text(text)?;
    Ok(line)
}

/// The colours and letters of a picture, on white.
pub fn style() -> &'static [u8]
    ensures { result.now ≡ style }
{
    b"<style>text{font-family:Arial,Helvetica,sans-serif}.title{font-size:28px;font-weight:bold}.name{font-size:22px;font-weight:bold}.type{font-size:18px;font-weight:normal;fill:#444}.share{font-size:15px;fill:#222}.date{font-size:22px;font-weight:bold}.hour{font-size:16px;fill:#444}.again{font-size:13px;fill:#777}.id{font-size:16px;text-anchor:middle}.port{font-size:13px;fill:#222}.to{text-anchor:end}.flight rect,.ground rect{stroke:#fff;stroke-width:2}.flight rect{fill:#88ccee}.ground rect{fill:#ddcc77}.red rect{fill:#bb2200;fill-opacity:.85}.red .id{fill:#fff;font-weight:bold}.rule{font-size:16px;font-weight:bold}.rule,.broken{fill:#bb2200}.turn{fill:#225588}.stop rect{fill:#b5ddd0}.curfew{fill:#aa4499;opacity:.18}.line{stroke:#888}</style><rect width='100%' height='100%' fill='#fff'/>\n"
}

/// The outline of a bar whose activity is moved. It stands behind the other colours, so it covers their outline.
pub fn moved_style() -> &'static [u8]
    ensures { result.now ≡ moved_style }
{
    b"<style>.moved rect{stroke:#332288;stroke-width:6}.moves{font-size:22px;font-weight:bold;fill:#332288}</style>\n"
}

/// A line for each hour, for each six hours and for each day, and in each row the hours 6, 12 and 18.
pub fn grid_patterns() -> &'static [u8]
    ensures { result.now ≡ grid_patterns }
{
    b"<defs><pattern id='hours' patternUnits='userSpaceOnUse' width='60' height='60'><path d='M.5 0V60' stroke='#e0e0e0'/></pattern><pattern id='sixes' patternUnits='userSpaceOnUse' width='360' height='60'><path d='M1 0V60' stroke='#bbb' stroke-width='2'/></pattern><pattern id='days' patternUnits='userSpaceOnUse' y='10' width='1440' height='100'><path d='M1.5 0V100' stroke='#444' stroke-width='3'/><g class='again'><text x='364' y='18'>06</text><text x='724' y='18'>12</text><text x='1084' y='18'>18</text></g></pattern></defs>\n"
}

/// The hours of a day.
pub fn clock() -> &'static [u8]
    ensures { result.now ≡ clock }
{
    b"<defs><pattern id='clock' patternUnits='userSpaceOnUse' x='340' y='90' width='1440' height='30'><g class='hour'><text x='4' y='24'>00</text><text x='64' y='24'>01</text><text x='124' y='24'>02</text><text x='184' y='24'>03</text><text x='244' y='24'>04</text><text x='304' y='24'>05</text><text x='364' y='24'>06</text><text x='424' y='24'>07</text><text x='484' y='24'>08</text><text x='544' y='24'>09</text><text x='604' y='24'>10</text><text x='664' y='24'>11</text><text x='724' y='24'>12</text><text x='784' y='24'>13</text><text x='844' y='24'>14</text><text x='904' y='24'>15</text><text x='964' y='24'>16</text><text x='1024' y='24'>17</text><text x='1084' y='24'>18</text><text x='1144' y='24'>19</text><text x='1204' y='24'>20</text><text x='1264' y='24'>21</text><text x='1324' y='24'>22</text><text x='1384' y='24'>23</text></g></pattern></defs><text class='hour' x='296' y='114'>UTC</text>\n"
}

/// Around what strips show parts of: it is drawn where they refer to it.
pub fn whole_open() -> &'static [u8]
    ensures { result.now ≡ whole_open }
{
    b"<defs><g id='all'>\n"
}

/// And its end.
pub fn whole_close() -> &'static [u8]
    ensures { result.now ≡ whole_close }
{
    b"</g></defs>\n"
}

/// The end of a picture.
pub fn close() -> &'static [u8]
    ensures { result.now ≡ close }
{
    b"</svg>\n"
}

/// A page around a picture.
pub fn html_open() -> &'static [u8]
    ensures { result.now ≡ html_open }
{
    b"<!DOCTYPE html><html lang='en'><head><meta charset='utf-8'><title>tailview</title></head><body style='margin:0'>\n"
}

/// And its end.
pub fn html_close() -> &'static [u8]
    ensures { result.now ≡ html_close }
{
    b"</body></html>\n"
}
