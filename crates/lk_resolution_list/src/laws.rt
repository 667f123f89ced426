//! Laws, each proved as the contract of a function that does nothing.

ghost use Rattle.lk_resolution_list.specs.StoreLaws.{RedirectsChangeValuesAlone};

/// A law: where redirects come to values, what symbols stand for changes in the values of redirects alone.
pub fn redirects_change_values_alone()
    ensures { RedirectsChangeValuesAlone }
{}
