// Tests of the calls that other crates make, as tables of cases; one module for each subject.
#![tactic(auto)]

#[cfg(test)]
mod codes;
#[cfg(test)]
mod filings;
#[cfg(test)]
mod fills;
#[cfg(test)]
mod layouts;
#[cfg(test)]
mod lines;
#[cfg(test)]
mod measures;
#[cfg(test)]
mod orders;
#[cfg(test)]
mod own;
#[cfg(test)]
mod pages;
#[cfg(test)]
mod piles;
#[cfg(test)]
mod sample;
