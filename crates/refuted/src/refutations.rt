// That the law over runs is false of wrong ways to act, as contracts of functions that compute nothing: one function for each
// way, so that each promise has a name of its own.
ghost use Rattle.refuted.specs.Ways.{ActsRight};
ghost use Rattle.refuted.specs.Wrong.{Refuted, by_floor, while_partial, counting_own_commit, all_in_conflict, made_up_version, trimming_to_last, dropping_one_more, sealing_nothing, reading_at_present, pruning_to_present, settling_by_any};

/// The wrong ways below are each one point away from the way in which sites act.
pub fn all_points_right_is_called()
    ensures { ActsRight }
{}

/// Too old by the floor of the site's own log.
pub fn deciding_by_the_floor_is_refuted()
    ensures { Refuted by_floor }
{}

/// Deliveries between entry pages and the closing page.
pub fn delivering_while_partial_is_refuted()
    ensures { Refuted while_partial }
{}

/// The commit of the snapshot itself counted as a conflict.
pub fn counting_the_own_commit_is_refuted()
    ensures { Refuted counting_own_commit }
{}

/// Every edit in conflict with version 1.
pub fn all_in_conflict_is_refuted()
    ensures { Refuted all_in_conflict }
{}

/// A commit told as the version after its own.
pub fn a_made_up_version_is_refuted()
    ensures { Refuted made_up_version }
{}

/// Trimming to the last version.
pub fn trimming_to_the_last_is_refuted()
    ensures { Refuted trimming_to_last }
{}

/// Trimming one entry more than the floor says.
pub fn dropping_one_more_is_refuted()
    ensures { Refuted dropping_one_more }
{}

/// Sealing that loses what was staged.
pub fn sealing_nothing_is_refuted()
    ensures { Refuted sealing_nothing }
{}

/// Drafts that read the version of now.
pub fn reading_at_present_is_refuted()
    ensures { Refuted reading_at_present }
{}

/// Pruning that looks at no draft.
pub fn pruning_to_present_is_refuted()
    ensures { Refuted pruning_to_present }
{}

/// A posted edit settled by any delivery.
pub fn settling_by_any_is_refuted()
    ensures { Refuted settling_by_any }
{}
