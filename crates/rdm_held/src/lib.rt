//! That the early messages are held as an endpoint's record keeps them.
#![tactic(auto)]

ghost use Rattle.rdm_held.specs.Laws.{NoneHeld, Opens, OpensWith, Hears, Adds, AddsReserved, Reserves, Meets, Forgets, AwaitsAsKept, FullAsKept};

/// What is held shows what the record keeps of early messages, before any is heard of and after each change.
pub fn held_law()
    ensures none { NoneHeld }
    ensures opens { Opens }
    ensures opens_with { OpensWith }
    ensures hears { Hears }
    ensures adds { Adds }
    ensures adds_reserved { AddsReserved }
    ensures reserves { Reserves }
    ensures meets { Meets }
    ensures forgets { Forgets }
    ensures awaits { AwaitsAsKept }
    ensures full { FullAsKept }
{}
