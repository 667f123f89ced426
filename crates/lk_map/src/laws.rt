//! Laws on maps. Each is a function that does nothing, and ensures its law.

ghost use Rattle.lk_map.specs.Good.{GoodMapsAreCongruent};
ghost use Rattle.lk_map.specs.Reading.{ReadsMaps, RefusesFirst, TextsAreRead};
ghost use Rattle.lk_map.specs.Verdicts.{MapsAreJudged, MapsRise, VerdictsAgree, VerdictsTellGood};
ghost use Rattle.lk_map.specs.Written.{TextsSayOneThing};

/// A text is read as these lines exactly where it is a map of them.
pub fn reads_maps()
    ensures { ReadsMaps }
{}

/// What is refused is refused at the first line at which no map goes on.
pub fn refuses_first()
    ensures { RefusesFirst }
{}

/// What is read of a text is what it says, and no text says anything else.
pub fn texts_are_read()
    ensures { TextsAreRead }
{}

/// Each text says something, and no text says two things.
pub fn texts_say_one_thing()
    ensures { TextsSayOneThing }
{}

/// In a good map each section that is allocated and has bytes in the file is as far behind the start of a segment that holds it in memory as
/// in the file, modulo every number.
pub fn good_maps_are_congruent()
    ensures { GoodMapsAreCongruent }
{}

/// The sections of a map stand in rising order of their lines.
pub fn maps_rise()
    ensures { MapsRise }
{}

/// Sections whose lines rise have a verdict, with any segments.
pub fn maps_are_judged()
    ensures { MapsAreJudged }
{}

/// No two verdicts on the same sections and segments differ.
pub fn verdicts_agree()
    ensures { VerdictsAgree }
{}

/// A verdict finds no fault exactly where the map is good.
pub fn verdicts_tell_good()
    ensures { VerdictsTellGood }
{}
