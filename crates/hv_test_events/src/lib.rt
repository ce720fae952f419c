//! Tests of the rules on events, over sources: initialisation, accesses and handles; and of what their checkers stand on.
#![tactic(auto)]

#[cfg(test)]
mod accesses;
#[cfg(test)]
mod changes;
#[cfg(test)]
mod exclusive;
#[cfg(test)]
mod functions;
#[cfg(test)]
mod graphs;
#[cfg(test)]
mod handles;
#[cfg(test)]
mod initialised;
#[cfg(test)]
mod judging;
#[cfg(test)]
mod layouts;
#[cfg(test)]
mod leaves;
#[cfg(test)]
mod needs;
#[cfg(test)]
mod pairs;
#[cfg(test)]
mod passes;
#[cfg(test)]
mod plans;
#[cfg(test)]
mod reads;
#[cfg(test)]
mod versions;
#[cfg(test)]
mod worked;
