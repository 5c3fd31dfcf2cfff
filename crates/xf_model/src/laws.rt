//! Laws of the definitions, for every type of rows, keys and values: each function does nothing, and its contract is
//! the laws, which specs/Laws.antt spells out.
ghost use Rattle.xf_model.specs.Laws.{AscendingKeysStay, BottomAscends, BottomHasPairs, CountIsLength, DisposedLeaves, EntriesLeaveOwnOut, FewAreRefused, FoldsAreOrderFree, FoldsJoin, KeysAreMembers, KeysAreOrderFree, KeysAreUnique, KeysAscend, KeysEmbed, KeysJoin, KeysStand, MovesEitherWay, MovesJoin, MovesToAll, OneMorePasses, OwnFilterIsUnseen, PairsAreUnique, ReplayGoesOn, RoundedKeysAscend, SameKeysStay, SameMovesNothing, SelectedJoin, SelectedKeep, TextBegins, TiesStay, UndoLeavesOthers, UnfilteredSelectAll, WholeCounts};

/// The distinct keys of a list are the set of its keys: they ascend strictly, each key of the list ties with one of
/// them, each of them is in the list, and no other strictly ascending keys tie alike. So the order of the list does
/// not matter, and what embeds one order into another takes them along.
pub fn ascending_keys<Key, Other>()
    ensures sorted { KeysAscend Key }
    ensures ties { TiesStay Key }
    ensures members { KeysAreMembers Key }
    ensures only { KeysAreUnique Key }
    ensures settled { AscendingKeysStay Key }
    ensures order_free { KeysAreOrderFree Key }
    ensures joined { KeysJoin Key }
    ensures embedded { KeysEmbed Key Other }
{}

/// Rows that are joined are selected each by itself; where no filter is set, all are. What is selected but for one
/// dimension does not see that dimension's filter, and those of it that pass the filter are the selected rows. Where
/// rows are removed, those that stay are selected as before. A dimension without a filter can go: as much is selected
/// without it.
pub fn selected_rows<Row, Key>()
    ensures joined { SelectedJoin Row Key }
    ensures unfiltered { UnfilteredSelectAll Row Key }
    ensures own_unseen { OwnFilterIsUnseen Row Key }
    ensures one_more { OneMorePasses Row Key }
    ensures kept { SelectedKeep Row Key }
    ensures disposed { DisposedLeaves Row Key }
{}

/// The count of rows is their number, also in a whole, and a fold over rows that are joined goes on from the first. A
/// group's keys are those of the rows whatever the filters, and its entries do not see the filter of its own dimension.
/// A row's rounded keys ascend strictly, and a rounding that gives each key back changes nothing.
pub fn group_values<Row, Key, Value>()
    ensures counted { CountIsLength Row }
    ensures whole_counted { WholeCounts Row Key }
    ensures joined { FoldsJoin Row Value }
    ensures keys_stand { KeysStand Row Key Value }
    ensures own_unseen { EntriesLeaveOwnOut Row Key Value }
    ensures unrounded { SameKeysStay Row Key }
    ensures rounded { RoundedKeysAscend Row Key }
{}

/// Where two rows change a fold alike in either order, rows in any order have the same fold. Where besides a row that was
/// added can be taken back, to undo any one of the rows gives the fold of the others. So a reducer with both laws may be
/// changed by the rows that come and go, in any order.
pub fn folded_rows<Row, Value>()
    ensures order_free { FoldsAreOrderFree Row Value }
    ensures undone { UndoLeavesOthers Row Value }
{}

/// The least keys with the places of their rows ascend strictly, by key and then by place. They are those of the
/// selected rows, and no other strictly ascending pairs are.
pub fn least_keys<Row, Key>()
    ensures sorted { BottomAscends Row Key }
    ensures members { BottomHasPairs Row Key }
    ensures only { PairsAreUnique Row Key }
{}

/// A filter in its own place moves nothing, as much moves the other way round, and of rows that are joined what moves
/// of each. To take a filter away moves what it leaves out.
pub fn moved_keys<Row, Key>()
    ensures same { SameMovesNothing Row Key }
    ensures swapped { MovesEitherWay Row Key }
    ensures joined { MovesJoin Row Key }
    ensures taken_away { MovesToAll Row Key }
{}

/// A session goes on from where its first lines have brought it: their text begins the text of all. No more steps are
/// refused than there are.
pub fn replayed_lines<State, Cause, Answer, Line>()
    ensures continued { ReplayGoesOn State Cause Answer Line }
    ensures begun { TextBegins State Cause Answer Line }
    ensures refusals { FewAreRefused State Cause Answer Line }
{}
