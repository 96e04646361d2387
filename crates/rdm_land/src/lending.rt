//! What the calls come to, one after another.
ghost use Rattle.rdm_land.specs.Loans.{LendGivesLoan, StayReserved, StayPlaced, StayFilled, StayLent, StayLanded, StayUnlent};
ghost use Rattle.rdm_land.specs.Laws.{LendLends, UnlendUndoesLend, LandIsUnlendAndPlace};

/// What a lend gives is lent, a range that is lent and taken back leaves all as it was, and to land a part is to place its bytes.
pub fn lending_law()
    ensures lent { LendLends }
    ensures undone { UnlendUndoesLend }
    ensures placed { LandIsUnlendAndPlace }
{}

/// What a lend gives is a loan, and a loan stays one, at its place, over each call for another range.
pub fn loans_law()
    ensures given { LendGivesLoan }
    ensures reserved { StayReserved }
    ensures placed { StayPlaced }
    ensures filled { StayFilled }
    ensures lent { StayLent }
    ensures landed { StayLanded }
    ensures unlent { StayUnlent }
{}
