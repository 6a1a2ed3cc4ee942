use bounded_list::Bounded;
use fabric_terms::Report;
use ring_points::MAX_RING_REPORTS;

/// What one step reports, in its order.
pub type Reports = Bounded<Report, MAX_RING_REPORTS>;
