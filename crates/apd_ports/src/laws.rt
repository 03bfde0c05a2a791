//! A law of filters.

ghost use Rattle.std.specs.Prelude.{◌↔◌, IsTrue, List};
ghost use Rattle.apd_ports.specs.Filter.{is_admitted};
ghost use Rattle.apd_ports.specs.Inside.{Admits, after_events};
ghost use Rattle.apd_ports.specs.declared.event.Event.{Event};
ghost use Rattle.apd_ports.specs.declared.filter.Filter.{Filter};

/// After whatever events a filter admits the ports that it says.
pub fn filters_admit_what_they_say()
    ensures { (f : Filter) (before : List Event) (e : Event) →
        IsTrue (is_admitted (after_events f before) e) ↔ Admits f before e }
{}
