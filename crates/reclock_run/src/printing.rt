// What `reclock` prints, as one text.
ghost use Rattle.std.specs.Prelude.{◌≡◌, ◌+◌, ◌^◌, ◌<◌, ◌++◌, length, OnOk, OnErr};
ghost use Rattle.feed_text.specs.Replies.{Extends};
ghost use Rattle.remap_core.specs.Reclocking.{without_time};
ghost use Rattle.reclock_run.specs.Texts.{operators_text, printed};

use reclock_text::{print_bindings, print_data, print_operator, print_unbound};
use remap_core::{Bindings, SourceList, unbound};
use std::alloc::AllocError;
use update_core::UpdateList;

// The collections of operators, the first of which has this number.
fn print_collections(
    out: &mut Vec<u8>,
    operator: u32,
    collections: &[UpdateList],
) -> Result<(), AllocError>
    requires few { operator + length collections.now < 2 ^ 32 }
    ensures ok { OnOk result (out.new.items ≡ out.old.items ++ operators_text operator collections.now) }
    ensures err { OnErr result (Extends out.old.items out.new.items) }
{
    let Some((first, rest)) = collections.split_first() else {
        return Ok(());
    };
    print_operator(out, operator, first)?;
    print_collections(out, operator + 1, rest)
}

/// Puts at the end the bindings, each operator's collection, the updates of the data shard, and how many of the rows have no time. Where
/// memory is refused, some of it may be there.
pub fn print_reclock(
    out: &mut Vec<u8>,
    bindings: &Bindings,
    rows: &SourceList,
    collections: &[UpdateList],
    data: &UpdateList,
) -> Result<(), AllocError>
    requires few { length collections.now < 2 ^ 32 }
    ensures ok { OnOk result (out.new.items ≡ out.old.items ++ printed bindings.now collections.now data.now
        (length (without_time rows.now bindings.now))) }
    ensures err { OnErr result (Extends out.old.items out.new.items) }
{
    print_bindings(out, bindings)?;
    print_collections(out, 0, collections)?;
    print_data(out, data)?;
    print_unbound(out, unbound(rows, bindings) as u64)
}
