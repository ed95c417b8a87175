//! How wide the columns are.

ghost use Rattle.std.specs.Prelude.{◌≡◌, ◌≤◌, IfOk, length};
ghost use Rattle.plan_picture.specs.Columns as columns;
ghost use Rattle.plan_picture.specs.Sheets.{sheet_shape};

use crate::rows::Row;
use crate::sheet::PictureSheet;
use crate::texts::{host_label, host_letters, small_need, wide_need};
use js_base::limits::HOSTS;
use js_base::{HostId, OutOfMemory};
use std::alloc::Global;

/// The widths of the columns of all hosts.
pub fn widths_of(
    alloc: Global,
    sheet: &PictureSheet<'_>,
    rows: &[Row],
) -> Result<Vec<u16>, OutOfMemory>
    ensures widths { IfOk result (λ widths. widths.items ≡ columns.widths_of (sheet_shape sheet.now) rows.now) }
    ensures few { IfOk result (λ widths. length widths.items ≤ HOSTS) }
{
    let count = sheet.code.hosts().len();
    prove!(count <= HOSTS);
    let mut widths = Vec::new(alloc);
    for number in 0..count {
        widths.push(width_of(alloc, sheet, rows, HostId(number as u8))?)?;
    }
    Ok(widths)
}

/// The width of the column of a host.
fn width_of(
    alloc: Global,
    sheet: &PictureSheet<'_>,
    rows: &[Row],
    host: HostId,
) -> Result<u16, OutOfMemory>
    ensures { IfOk result (λ width. width ≡ columns.width_of (sheet_shape sheet.now) rows.now host) }
{
    let least = head_width(alloc, sheet, host, has_part(rows, host))?;
    Ok(widest(rows, host, least))
}

/// The width of the head of a host, which has a part or not.
fn head_width(
    alloc: Global,
    sheet: &PictureSheet<'_>,
    host: HostId,
    part: bool,
) -> Result<u16, OutOfMemory>
    ensures { IfOk result (λ width. width ≡ columns.head_width (sheet_shape sheet.now) host part) }
{
    let name = wide_need(host_letters(alloc, sheet, host)?.len());
    if !part {
        return Ok(name.max(56));
    }
    let label = small_need(host_label(alloc, sheet, host)?.len());
    Ok(name.max(label).max(120))
}

/// Whether some row is in the column of a host.
pub fn has_part(rows: &[Row], host: HostId) -> bool
    ensures { result ≡ columns.has_part host rows.now }
{
    for row in rows {
        if row.host.0 == host.0 {
            return true;
        }
    }
    false
}

/// The widest of the boxes in the column of a host, or more.
fn widest(rows: &[Row], host: HostId, least: u16) -> u16
    ensures { result ≡ columns.widest host least rows.now }
{
    let mut most = least;
    for row in rows {
        if row.host.0 == host.0 {
            most = most.max(row.width);
        }
    }
    most
}
