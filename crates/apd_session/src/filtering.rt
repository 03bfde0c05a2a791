//! The filter of later runs.

ghost use Rattle.std.specs.Prelude.{◌≡◌, length, OnOk, OnErr};
ghost use Rattle.apd_query.specs.Running.{IsReady};
ghost use Rattle.apd_session.specs.Steps.{with_filter};
ghost use Rattle.apd_talk.specs.Speech.{Says, one};
ghost use Rattle.apd_text.specs.FilterTerms.{FilterIsNamed};

use apd_io::Sink;
use apd_ports::Filter;
use apd_query::State;
use apd_talk::{Trouble, Voice};
use apd_text::Entry;

/// Sets the filter by which the ports of later runs are printed, and says so.
pub(crate) fn set_filter<K: Sink>(
    state: &mut State,
    filter: Filter,
    voice: &mut Voice<K>,
) -> Result<(), Trouble>
    requires ready { IsReady (length voice.old.log.names) state.old }
    requires named { FilterIsNamed (length voice.old.log.names) filter }
    ensures becomes { OnOk result (state.new ≡ with_filter state.old filter) }
    ensures ready { OnOk result (IsReady (length voice.old.log.names) state.new) }
    ensures kept { OnErr result (state.new ≡ state.old) }
    ensures says { Says (one (Entry.TraceSet filter))
        voice.old voice.new result }
{
    let told = filter.copy(voice.alloc())?;
    voice.say(Entry::TraceSet { filter: told })?;
    state.filter = filter;
    Ok(())
}
