//! What cycles, delay tables, trees, leads and reports say by their definitions alone: a function's
//! clauses are laws, and its body is empty.

ghost use Rattle.cts_model.specs.timing.Laws.{CycleBoundsPeriod, ShownPeriodIsLeast, ForbiddenAtAll, MeetsConstraints, CriticalIsLeast, ForbiddingAtAll};
ghost use Rattle.cts_model.specs.timing.LeadLaws.{LedArrivalsAreLeast};
ghost use Rattle.cts_model.specs.report.SaidReports.{ShownIsWhatItSays};
ghost use Rattle.cts_model.specs.report.Shown.{ShownIsLeast};
ghost use Rattle.cts_model.specs.tree.SkewLaws.{OffsetsAreSkews, SkewsAreOffsets, LeastForSchedule, RealisedMeets};
ghost use Rattle.cts_model.specs.table.TableLaws.{UnknownKeyIsLeast, FirstDisorderIsDenoted};
ghost use Rattle.cts_model.specs.tree.TreeLaws.{ReachesRealise, ShownReachesAreLeast, RealisedHaveReaches, ReachesAreNoLess, WireIsOfReaches};

/// A cycle among constraints bounds the periods at which any arrivals satisfy them.
pub fn cycles()
    ensures sum { CycleBoundsPeriod }
    ensures shown { ShownPeriodIsLeast }
    ensures forbidden { ForbiddenAtAll }
{}

/// The constraints of a circuit are what its paths ask, and a cycle of them shows what it shows of
/// the circuit's periods.
pub fn circuits()
    ensures met { MeetsConstraints }
    ensures critical { CriticalIsLeast }
    ensures forbidding { ForbiddingAtAll }
{}

/// What the first flaw of a delay table says of its names and of its order.
pub fn tables()
    ensures unknown { UnknownKeyIsLeast }
    ensures disorder { FirstDisorderIsDenoted }
{}

/// What the shows of a tree say of every tree with its topology, and what the reaches of every
/// tree say of its wire.
pub fn trees()
    ensures realised { ReachesRealise }
    ensures least { ShownReachesAreLeast }
    ensures reaches { RealisedHaveReaches }
    ensures no_less { ReachesAreNoLess }
    ensures wire { WireIsOfReaches }
{}

/// What leads say of arrivals that meet a period over every path.
pub fn leads()
    ensures least { LedArrivalsAreLeast }
{}

/// What trees over the sinks of a schedule say of the schedule.
pub fn skews()
    ensures realised { OffsetsAreSkews }
    ensures offsets { SkewsAreOffsets }
    ensures least { LeastForSchedule }
    ensures meets { RealisedMeets }
{}

/// What a report shows of a problem is so, whoever made the report.
pub fn reports()
    ensures least { ShownIsLeast }
    ensures said { ShownIsWhatItSays }
{}
