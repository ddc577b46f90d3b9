//! Laws of the definitions of this crate. A call does nothing; its contract is the law.
ghost use Rattle.pg_select.specs.Inside.laws.Laws.{CandidatesInOrder, CandidatesAreCounted, CountsAreTally, CandidatesAreListed, PositionsAreFew, CandidatesAreFew, TotalsAreSmall, CountedAreLight, SumsAreParts, CandidatesAreLow, ChosenGetLevel, OthersStay, NoneFalls, RaisesWhereItApplies, GivenUpKeepsValues, CoversWhereRaised, HopelessCovers, GivenUpCovers, LaterAtOnce, LaterStill, LaterRaised, LaterHopeless, StatusBack, CountedBack, CountsNothingLater, CountedShorter, CountsNothingLonger, LaterAfterPass, CountsNothingWhenCovered, CountsNothingAtEnd};

/// The candidates of a pass are the windows that it counts. They stand strictly in the order of
/// signs, so each once.
pub fn candidates_in_order()
    ensures order { CandidatesInOrder }
    ensures counted { CandidatesAreCounted }
{}

/// Counting what a pass counts, one position after the other, gives its candidates with their sums
/// of good and bad weights.
pub fn counts_give_sums()
    ensures counts { CountsAreTally }
    ensures candidates { CandidatesAreListed }
{}

/// The words of a dictionary have no more positions in reach than letters. A pass has no more
/// candidates than there are such positions. The totals of the words are below 2^40, and so is each
/// sum of weights of a pass.
pub fn sums_are_small()
    ensures positions { PositionsAreFew }
    ensures candidates { CandidatesAreFew }
    ensures totals { TotalsAreSmall }
    ensures counted_positions { CountedAreLight }
    ensures parts { SumsAreParts }
{}

/// A candidate has at the dot of its pass a value below the level, so it gets exactly the level
/// where it is chosen.
pub fn chosen_get_level()
    ensures low { CandidatesAreLow }
    ensures chosen { ChosenGetLevel }
{}

/// An entry never falls: a raise leaves the values of the other dotted strings, and raises those of
/// positions where its dotted string applies.
pub fn entries_never_fall()
    ensures others { OthersStay }
    ensures falls { NoneFalls }
    ensures values { RaisesWhereItApplies }
{}

/// A hopeless entry changes no value. It covers the windows in which it stands with its dot, as an
/// entry of the level does.
pub fn hopeless_only_covers()
    ensures values { GivenUpKeepsValues }
    ensures raised { CoversWhereRaised }
    ensures hopeless { HopelessCovers }
    ensures given_up { GivenUpCovers }
{}

/// The points of a level follow one another. Choosing a window and giving one up each lead to a
/// later point.
pub fn levels_go_on()
    ensures at_once { LaterAtOnce }
    ensures still { LaterStill }
    ensures raised { LaterRaised }
    ensures hopeless { LaterHopeless }
    ensures decided { LaterAfterPass }
{}

/// Within a level a position that is no longer counted is not counted later, so a pass that counts
/// nothing counts nothing later.
pub fn nothing_counts_later()
    ensures statuses { StatusBack }
    ensures counted { CountedBack }
    ensures later { CountsNothingLater }
{}

/// A position that is not counted with a window is not counted with a longer one. So where a pass
/// counts nothing, the passes that are longer by a sign, with the same dot or the next, count
/// nothing.
pub fn nothing_counts_longer()
    ensures counted { CountedShorter }
    ensures longer { CountsNothingLonger }
{}

/// A pass that left no candidate, as it chose or gave up each of them, counts nothing from its end
/// to the end of the level.
pub fn nothing_counts_after()
    ensures covered { CountsNothingWhenCovered }
    ensures decided { CountsNothingAtEnd }
{}
