// The promise of the whole: whatever the others do, an honest side is treated fairly. Each function stands for the theorem in its contract.
#![tactic(auto)]

ghost use Rattle.fairness.specs.Example.{PremisesMet};
ghost use Rattle.fairness.specs.Rows.{RowsHold};
ghost use Rattle.fairness.specs.Promise.{Main, Always, ForEach, HoldsContract, NoContract, NoContractAtAll, StaysEnded, CanEnd, NeverBoth, SameAnswer, OwnOnly, BothAlike, ComesThrough, SentOn};

// All that follows, in one.
pub fn fair_stands()
    ensures { Main }
{}

// Who is bound holds a contract of its offer that everybody accepts.
pub fn bound_holds_contract()
    ensures { ForEach HoldsContract }
{}

// Who is free: there is no contract of the offer and there never will be, unless the notary signed both, which both papers show.
pub fn free_has_no_contract()
    ensures { ForEach NoContract }
{}

// With an honest notary, not even so.
pub fn free_with_honest_notary()
    ensures { ForEach NoContractAtAll }
{}

// Ended is for ever.
pub fn ended_stays()
    ensures { ForEach StaysEnded }
{}

// An honest side can end by a word with an honest notary that has room for it, or a row already.
pub fn can_end()
    ensures { ForEach CanEnd }
{}

// An honest notary never signs both Off and Stands of one offer.
pub fn never_both()
    ensures { Always NeverBoth }
{}

// An honest notary answers with the same bytes always.
pub fn same_answer()
    ensures { Always SameAnswer }
{}

// A contract that names an honest side is one of that side's own exchanges.
pub fn own_exchanges_only()
    ensures { Always OwnOnly }
{}

// Where all are honest, both end bound or both end free.
pub fn both_alike()
    ensures { Always BothAlike }
{}

// If the messages come through, both end bound without the notary.
pub fn comes_through()
    ensures { Always ComesThrough }
{}

// Whatever honest code sends, anybody can send on, late or again: the runs leave no message out.
pub fn sent_on()
    ensures { Always SentOn }
{}

// What the promise asks of a setting can be met, and there are runs in which an exchange is called off and in which both sides are bound.
pub fn premises_met()
    ensures { PremisesMet }
{}

// Seven courses of an exchange come out as the table says.
pub fn rows_hold()
    ensures { RowsHold }
{}
