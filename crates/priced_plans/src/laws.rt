//! What prices tell of all plans.
ghost use Rattle.std.specs.Prelude.{◌≡◌, ◌≢◌, ℕ, ◌<◌, ◌^◌, List, length, ℤ, pos, ◌+ℤ◌, ◌≤ℤ◌};
ghost use Rattle.flow_types.specs.Bounds.{IsAtMost};
ghost use Rattle.flow_types.specs.Feasible.{AreTrips, IsFeasible};
ghost use Rattle.flow_types.specs.Valid.{IsScenario};
ghost use Rattle.flow_types.specs.declared.bound.Bound.{Bound};
ghost use Rattle.flow_types.specs.declared.bound.PriceKey.{PriceKey};
ghost use Rattle.flow_types.specs.declared.parts.Parts.{Parts};
ghost use Rattle.flow_types.specs.declared.plan.Stop.{Stop};
ghost use Rattle.flight_routes.specs.Inside.{IsTripIn};
ghost use Rattle.flight_routes.specs.Prices.{AreFree, ArePricesOf, IsKeyOf, PriceTable, price_at};
ghost use Rattle.time_windows.specs.Boxes.{Box};
ghost use Rattle.priced_plans.specs.PricedBound.{IsPricedBound};
ghost use Rattle.time_windows.specs.Plans.{IsBoundIn, HasNoPlan};
ghost use Rattle.priced_plans.specs.Values.{BoundsPlans, IsPricedValue, limit_price, loads_price, plan_price, turns_price};
ghost use Rattle.priced_plans.specs.Valuing.{AreSmall};

/// The trips of a plan pay by its counts: for each place and period the price times the number of
/// flights that depart, arrive or are inside; and for each connection and period the price where
/// the second flight has departed, less the price where the aircraft is ready, the turnaround after
/// the first flight's arrival.
pub fn plans_pay_by_counts()
    ensures { (parts : Parts) (table : PriceTable) (plan : List (List Stop)) → IsScenario parts
        → AreTrips parts.day.periods parts.flights plan
        → plan_price table parts 0 parts.flights plan
        ≡ pos (loads_price table parts plan)
        +ℤ turns_price table parts.day.periods plan 0 parts.connections }
{}

/// The trips of a feasible plan pay together no more than all capacities would.
pub fn plans_pay_no_more_than_capacities()
    ensures { (parts : Parts) (table : PriceTable) (plan : List (List Stop)) → IsScenario parts
        → IsFeasible parts plan
        → plan_price table parts 0 parts.flights plan ≤ℤ pos (limit_price parts table) }
{}

/// The value of any prices bounds the feasible plans in a box (`value`). None is there where a
/// flight has no trip in the box (`none`).
pub fn priced_values_are_bounds()
    ensures value { (parts : Parts) (box : Box) (weight : ℕ) (table : PriceTable) (value : ℤ)
        → IsScenario parts → IsPricedValue parts box weight table value
        → BoundsPlans parts box weight value }
    ensures none { (parts : Parts) (box : Box) (number : ℕ) → number < length parts.flights
        → ((stops : List Stop) → IsTripIn parts box number stops → ⊥) → HasNoPlan parts box }
{}

/// Every price is below 2^62 where all are 0 (`free`), and still is where such a price was set
/// (`set`).
pub fn prices_are_small()
    ensures free { (table : PriceTable) → AreFree table → AreSmall table }
    ensures set { (parts : Parts) (old new : PriceTable) (chosen : PriceKey) (value : ℕ)
        → ArePricesOf parts old → ArePricesOf parts new → AreSmall old → value < 2 ^ 62
        → price_at new chosen ≡ value
        → ((other : PriceKey) → IsKeyOf old other → other ≢ chosen
        → price_at new other ≡ price_at old other)
        → AreSmall new }
{}

/// In a part of a box the same prices tell no less, since each flight has fewer trips there.
pub fn prices_tell_no_less_in_parts()
    ensures { (parts : Parts) (whole part : Box) (weight : ℕ) (table : PriceTable)
        (in_whole in_part : Bound)
        → ((number : ℕ) (stops : List Stop) → IsTripIn parts part number stops
        → IsTripIn parts whole number stops)
        → IsPricedBound parts whole weight table in_whole
        → IsPricedBound parts part weight table in_part → IsAtMost in_whole in_part }
{}

/// The bound that prices tell bounds the feasible plans in a box.
pub fn priced_bounds_are_bounds()
    ensures { (parts : Parts) (box : Box) (weight : ℕ) (table : PriceTable) (bound : Bound)
        → IsScenario parts → IsPricedBound parts box weight table bound
        → IsBoundIn parts box bound }
{}
