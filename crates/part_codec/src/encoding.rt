// Writing of parts.
ghost use Rattle.std.specs.Prelude.{◌≡◌, ◌≤◌, ◌++◌, length, OnOk, IfOk};
ghost use Rattle.std.specs.Int.{w64, cast_unsigned, to_be_bytes};
ghost use Rattle.std.specs.List.{AllByRecursion};
ghost use Rattle.update_core.specs.Limits.{max_part_rows};
ghost use Rattle.part_codec.specs.Parts.{row_bytes, spelling, Fits, NonZero, Part, Rising};

use std::alloc::{AllocError, Global};
use store_core::Bytes;
use update_core::Update;

fn put_diff(out: &mut Vec<u8>, diff: i64) -> Result<(), AllocError>
    ensures { OnOk result (out.new.items ≡ out.old.items ++ to_be_bytes w64 (cast_unsigned w64 diff)) }
{
    out.extend_from_slice(&diff.to_be_bytes())?;
    Ok(())
}

fn put_row(out: &mut Vec<u8>, row: &Update) -> Result<(), AllocError>
    ensures written { OnOk result (out.new.items ≡ out.old.items ++ row_bytes row.now) }
    ensures fits { OnOk result (Fits row.now) }
{
    let datum = row.datum.bytes();
    out.push(datum.len() as u8)?;
    out.extend_from_slice(datum)?;
    out.extend_from_slice(&row.time.to_be_bytes())?;
    put_diff(out, row.diff)?;
    Ok(())
}

fn spelled(alloc: Global, rows: &[Update]) -> Result<Vec<u8>, AllocError>
    requires { length rows.now ≤ max_part_rows }
    ensures spelled { IfOk result (λ bytes. bytes.items ≡ spelling rows.now) }
    ensures fit { OnOk result (AllByRecursion Fits rows.now) }
{
    let mut out = Vec::new(alloc);
    out.extend_from_slice(b"PART\x01")?;
    out.extend_from_slice(&(rows.len() as u32).to_be_bytes())?;
    for row in rows {
        put_row(&mut out, row)?;
    }
    Ok(out)
}

/// The bytes of the part with these rows. It fails only for want of memory.
pub fn encode_part(alloc: Global, rows: &[Update]) -> Result<Bytes, AllocError>
    requires few { length rows.now ≤ max_part_rows }
    requires rising { Rising rows.now }
    requires nonzero { NonZero rows.now }
    ensures { IfOk result (λ bytes. Part rows.now bytes) }
{
    let bytes = spelled(alloc, rows)?;
    Bytes::of(alloc, bytes)
}
