// What it comes to that a series fires.

ghost use Rattle.pearl_rules.specs.SeriesLaws.{FiresAsSaid, FiresFirst, FiresPeriodsApart, FiresOnce, FiresForever};

/// A series fires exactly at the moments that are whole periods after its first one, up to its last one.
pub fn series_fire_as_said()
    ensures { FiresAsSaid }
{}

/// A series fires at its first moment, where that isn't behind its last one.
pub fn series_fire_at_their_first_moment()
    ensures { FiresFirst }
{}

/// Any two moments at which a series fires are whole periods apart.
pub fn firings_are_periods_apart()
    ensures { FiresPeriodsApart }
{}

/// A series without a period fires once at most.
pub fn series_without_period_fire_once()
    ensures { FiresOnce }
{}

/// A series without a last moment fires at each moment that is whole periods after its first one.
pub fn series_without_end_fire_forever()
    ensures { FiresForever }
{}
