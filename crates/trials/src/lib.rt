// Examples that are run: byte strings judged, cases written, choices checked.
#![tactic(auto)]

#[cfg(test)]
mod choices;
#[cfg(test)]
mod files;
#[cfg(test)]
mod writing;
