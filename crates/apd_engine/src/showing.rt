//! One port or one answer of a run: the record is told of it, and the hook is shown it.

ghost use Rattle.std.specs.Prelude.{◌≡◌, ◌-◌, ◌<◌, ◌^◌, length, None, Ok, OnOk, IfErr};
ghost use Rattle.apd_base.specs.Counts.{Counts};
ghost use Rattle.apd_record.specs.Open.{noted_row, rows_held, with_box_row, MayAdd};
ghost use Rattle.apd_ports.specs.declared.event.Event.{Event};
ghost use Rattle.apd_ports.specs.declared.hook.Shown.TheVariants.{Port as ShownPort, Answer as ShownAnswer};
ghost use Rattle.apd_engine.specs.Cut.{FailsAt, is_write_fault};
ghost use Rattle.apd_engine.specs.Given.{IsPortRead};
ghost use Rattle.apd_engine.specs.Recording.{HasRow};

use crate::given::ToldCall;
use crate::recording::{tell_answer, tell_call, tell_later};
use crate::running::RunFault;
use apd_ports::{Event, Hook, PointId};
use apd_record::held::Held;
use apd_record::ongoing::Open;
use apd_term::Flat;
use apd_trace::Item;
use std::boxed::Box;

/// The Call is shown, where somebody reads ports.
#[inline(always)]
fn show_read<H: Hook>(hook: &mut H, port: &Option<Box<Item>>) -> Result<(), RunFault>
    ensures shown { (e : Event) → IsPortRead H.step hook.old e port.now →
        OnOk result (H.step hook.old (ShownPort e) (Ok tt) hook.new) }
    ensures cut { (e : Event) → IsPortRead H.step hook.old e port.now →
        IfErr result (FailsAt H.step hook.old (ShownPort e) hook.new) }
    ensures cause { Counts is_write_fault (H.faults hook.old) (H.faults hook.new) result }
{
    match port {
        None => Ok(()),
        Some(item) => match &**item {
            Item::Passed(event) => {
                hook.event(event)?;
                Ok(())
            }
            _ => Ok(()),
        },
    }
}

/// A goal is called, after a point that was held back. The newest point then has this number. It is compiled into the loop of
/// a run, so that what is told of the call goes through no memory.
#[inline(always)]
pub fn show_call<H: Hook>(
    hook: &mut H,
    rows: &mut Open,
    held: &mut Held,
    call: &ToldCall,
    from: PointId,
) -> Result<(), RunFault>
    requires held { MayAdd rows.old held.old }
    requires from { from.0 < length (rows_held rows.old held.old).points }
    requires few_points { length rows.old.points < 2 ^ 32 - 1 }
    requires few_boxes { length rows.old.boxes < 2 ^ 32 - 1 }
    ensures told { OnOk result (rows.new ≡
        with_box_row (rows_held rows.old held.old) from.0 call.now.is_user call.now.size) }
    ensures none { held.new ≡ None }
    ensures shown { (e : Event) → IsPortRead H.step hook.old e call.now.port →
        OnOk result (H.step hook.old (ShownPort e) (Ok tt) hook.new) }
    ensures cut { (e : Event) → IsPortRead H.step hook.old e call.now.port →
        IfErr result (FailsAt H.step hook.old (ShownPort e) hook.new) }
    ensures cause { Counts is_write_fault (H.faults hook.old) (H.faults hook.new) result }
{
    tell_call(rows, held, from, call.is_user, call.size)?;
    show_read(hook, &call.port)
}

/// A port other than Call is passed, after a point that was held back. It is a function of its own, as is the next one, so that
/// the loop of a run has no place for what the hook gives: where nobody reads ports it seldom comes to either.
#[inline(never)]
pub fn show_later<H: Hook>(
    hook: &mut H,
    rows: &mut Open,
    held: &mut Held,
    event: &Event,
) -> Result<(), RunFault>
    requires held { MayAdd rows.old held.old }
    requires there { HasRow (rows_held rows.old held.old) event.now.box_no }
    requires few_points { length rows.old.points < 2 ^ 32 - 1 }
    ensures told { OnOk result (rows.new ≡
        noted_row (rows_held rows.old held.old) event.now.box_no event.now.port) }
    ensures none { held.new ≡ None }
    ensures shown { OnOk result (H.step hook.old (ShownPort event.now) (Ok tt) hook.new) }
    ensures cut { IfErr result (FailsAt H.step hook.old (ShownPort event.now) hook.new) }
    ensures cause { Counts is_write_fault (H.faults hook.old) (H.faults hook.new) result }
{
    tell_later(rows, held, event.port, event.box_no)?;
    hook.event(event)?;
    Ok(())
}

/// An answer is given, after a point that was held back.
#[inline(never)]
pub fn show_answer<H: Hook>(
    hook: &mut H,
    rows: &mut Open,
    held: &mut Held,
    values: &Flat,
) -> Result<(), RunFault>
    requires held { MayAdd rows.old held.old }
    requires few_points { length rows.old.points < 2 ^ 32 - 1 }
    ensures told { OnOk result (rows.new ≡ rows_held rows.old held.old) }
    ensures none { held.new ≡ None }
    ensures shown { OnOk result (H.step hook.old (ShownAnswer values.now) (Ok tt) hook.new) }
    ensures cut { IfErr result (FailsAt H.step hook.old (ShownAnswer values.now) hook.new) }
    ensures cause { Counts is_write_fault (H.faults hook.old) (H.faults hook.new) result }
{
    tell_answer(rows, held)?;
    hook.answer(values)?;
    Ok(())
}
