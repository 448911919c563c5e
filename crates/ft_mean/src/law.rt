ghost use Rattle.ft_mean.specs.laws.EvaluationLaws.{SameValue, SameTruth, SameTruths, SameCell, SameHolding};
ghost use Rattle.ft_mean.specs.laws.LookLaws.{MemoriesRemember, SidesReadNoAge, LooksAreLinked, SideLooksSame, SideFollowsSame, NatSame};
ghost use Rattle.ft_mean.specs.laws.LookLaws.{LooksAreLocal};
ghost use Rattle.ft_mean.specs.laws.PastLaws.{SameHeld, SameAge, SameHyst, HystBegins, HystGoesOn, AgeBegins, AgeGoesOn, HeldByAge};
ghost use Rattle.ft_mean.specs.laws.RowLaws.{PlacesAreInside, PlacesAreTaken, SameRows, ReadAtPlace, ReadInRange, ReadInFront, HasRows};
ghost use Rattle.ft_mean.specs.laws.RowLaws.{GivenOrDefined};
ghost use Rattle.ft_mean.specs.laws.SafetyLaws.{ViewsKeepSizes, LooksKeepSizes, ListsTellValues, ClausesAreSafe, TablesAreSafe};
ghost use Rattle.ft_mean.specs.laws.SafetyLaws.{MemoriesAreSafe, SafeByLess};
ghost use Rattle.ft_mean.specs.laws.TableLaws.{HasTable, CellsAreOfTable, CellsReadTheirs, OwnReads, CellsMayRead, SameDefined};
ghost use Rattle.ft_mean.specs.laws.TableLaws.{SectionsAreTold, HasOneValue};
ghost use Rattle.ft_mean.specs.laws.TimeLaws.{ElapsedUp, SinceNone, SinceNext, SinceFalls, BegunLow, BegunHere, BegunPast};
ghost use Rattle.ft_mean.specs.laws.TimeLaws.{BeginsFirst, BeforeBegins, BeforeLater, ScanBefore, BeforeSame};
ghost use Rattle.ft_mean.specs.laws.TimeLaws.{BeginsOnce, BegunFirst, ElapsedPeriod, SincePeriods};
ghost use Rattle.ft_mean.specs.laws.TraceLaws.{FitsLonger, AllowedShorter, FitsShorter, InputsShorter, OutputsShorter, SameFront};
ghost use Rattle.ft_mean.specs.laws.TraceLaws.{DiffersShorter};
ghost use Rattle.ft_mean.specs.laws.Whole.{RunsAreWhole, WholesSplit, SplitsAreRuns, SplitsDiffer};
ghost use Rattle.ft_mean.specs.laws.Laws.{FitsOneTrace, HasOneImage, HeldIsFullAge, MemoriesMove, MapsByScan, OutputsAlone, AllowedByScan};

/// Where every table is proper, every given list in range fits exactly one trace of its side.
pub fn one_trace()
    ensures { FitsOneTrace }
{}

/// Where every table is proper, every monitored list has exactly one list of inputs, and every design trace in range
/// exactly one list of controlled values.
pub fn one_image()
    ensures { HasOneImage }
{}

/// Where what lies further back is no less long ago, and the hold isn't negative, a condition has been held exactly where
/// its age is the hold.
pub fn held_is_full_age()
    ensures { HeldIsFullAge }
{}

/// Along every reading each memory makes its move at each scan: what it keeps comes by the move from what it kept, nothing
/// else does, and it tells the memory's truth.
pub fn memories_move()
    ensures { MemoriesMove }
{}

/// IN of monitored values and OUT of outputs go scan by scan.
pub fn maps_by_scan()
    ensures { MapsByScan }
{}

/// OUT looks at the outputs alone: the image of a design trace is that of its list of outputs.
pub fn outputs_alone()
    ensures { OutputsAlone }
{}

/// NAT looks at a scan and the one before.
pub fn allowed_by_scan()
    ensures { AllowedByScan }
{}

/// Views that agree on what is read give terms, conditions and cells the same.
pub fn evaluation_laws()
    ensures same_value { SameValue }
    ensures same_truth { SameTruth }
    ensures same_truths { SameTruths }
    ensures same_cell { SameCell }
    ensures same_holding { SameHolding }
{}

/// Timers, ages and bands see the scans up to this one, begin, and go on by one scan at a time.
pub fn past_laws()
    ensures same_held { SameHeld }
    ensures same_age { SameAge }
    ensures same_hyst { SameHyst }
    ensures hyst_begins { HystBegins }
    ensures hyst_goes_on { HystGoesOn }
    ensures age_begins { AgeBegins }
    ensures age_goes_on { AgeGoesOn }
    ensures held_by_age { HeldByAge }
{}

/// Time from scan to scan, where scans begin, and what each variable is one scan before: all that may be used of these
/// definitions. The last four are of sets that never begin anew and of one period.
pub fn time_laws()
    ensures elapsed_up { ElapsedUp }
    ensures since_none { SinceNone }
    ensures since_next { SinceNext }
    ensures since_falls { SinceFalls }
    ensures begun_low { BegunLow }
    ensures begun_here { BegunHere }
    ensures begun_past { BegunPast }
    ensures begins_first { BeginsFirst }
    ensures before_begins { BeforeBegins }
    ensures before_later { BeforeLater }
    ensures scan_before { ScanBefore }
    ensures before_same { BeforeSame }
    ensures begins_once { BeginsOnce }
    ensures begun_first { BegunFirst }
    ensures elapsed_period { ElapsedPeriod }
    ensures since_periods { SincePeriods }
{}

/// Each memory's truth at a scan is what its timer or band says over the truths of the memories that it reads; what it
/// reads is as the look there has it; and it is linked to that.
pub fn memory_laws()
    ensures remember { MemoriesRemember }
    ensures ageless { SidesReadNoAge }
    ensures linked { LooksAreLinked }
{}

/// What the look at a scan of a reading depends on, and that it is local where the reading is in range.
pub fn look_laws()
    ensures same_side { SideLooksSame }
    ensures same_follows { SideFollowsSame }
    ensures same_nat { NatSame }
    ensures local { LooksAreLocal }
{}

/// The one table of a section for a variable, what its cells read, and the one value that a proper table gives.
pub fn table_laws()
    ensures has_table { HasTable }
    ensures cells_are { CellsAreOfTable }
    ensures cells_read { CellsReadTheirs }
    ensures own_reads { OwnReads }
    ensures may_read { CellsMayRead }
    ensures same_defined { SameDefined }
    ensures sections { SectionsAreTold }
    ensures one_value { HasOneValue }
{}

/// The places of variables in rows, and what lists of rows tell.
pub fn row_laws()
    ensures inside { PlacesAreInside }
    ensures taken { PlacesAreTaken }
    ensures same_rows { SameRows }
    ensures at_place { ReadAtPlace }
    ensures in_range { ReadInRange }
    ensures in_front { ReadInFront }
    ensures has_rows { HasRows }
    ensures given_or_defined { GivenOrDefined }
{}

/// Traces go on by a scan, and what is allowed, fits or is an image goes over to the first scans.
pub fn trace_laws()
    ensures longer { FitsLonger }
    ensures allowed { AllowedShorter }
    ensures fits { FitsShorter }
    ensures inputs { InputsShorter }
    ensures outputs { OutputsShorter }
    ensures same_front { SameFront }
    ensures differs { DiffersShorter }
{}

/// An allowed list with its inputs and its two traces is one whole reading, and a whole reading is made of such lists.
pub fn whole_laws()
    ensures joint { RunsAreWhole }
    ensures splits { WholesSplit }
    ensures runs { SplitsAreRuns }
    ensures differs { SplitsDiffer }
{}

/// A view of values in range keeps the sizes of its set, and where they are kept all of a checked set can be computed.
pub fn safety_laws()
    ensures views { ViewsKeepSizes }
    ensures looks { LooksKeepSizes }
    ensures lists { ListsTellValues }
    ensures clauses { ClausesAreSafe }
    ensures tables { TablesAreSafe }
    ensures memories { MemoriesAreSafe }
    ensures by_less { SafeByLess }
{}
