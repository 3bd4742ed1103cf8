//! The system that a run of the program uses.

use he_names::Environment;
use he_resolver::SystemResolver;
use he_tasks::TaskSystem;
use std::env;
use std::net::Net;
use std::rt::Env;
use std::sync::Wait;
use std::time::Clock;

/// The system of a task, and the environment, the network and the system's resolver, waiting and a clock.
pub trait System: TaskSystem + Env + Net + SystemResolver + Wait + Clock + Copy + Send + 'static {}

impl<R> System for R
where
    R: TaskSystem + Env + Net + SystemResolver + Wait + Clock + Copy + Send + 'static,
{}

/// The environment variables that change the resolver configuration.
#[derive(Drop)]
pub struct Variables {
    local_domain: Option<String>,
    res_options: Option<String>,
}

impl Variables {
    /// The variables of this process.
    pub fn read<R: System>(rt: &R) -> Variables {
        Variables {
            local_domain: env::var(rt, "LOCALDOMAIN").ok(),
            res_options: env::var(rt, "RES_OPTIONS").ok(),
        }
    }

    /// The variables as an `Environment` of `he_names`.
    pub fn environment(&self) -> Environment<'_> {
        Environment {
            local_domain: self.local_domain.as_deref(),
            res_options: self.res_options.as_deref(),
        }
    }
}
