//! The routes of the service: what each method does at each path, and with which parameters.
//!
//! A further route is a row of [`ROUTES`], and one of the definition `routes`.

ghost use Rattle.std.specs.Prelude.{◌≡◌, IfOk, MatchResult, Some, find, map, slice_get};
ghost use Rattle.std.specs.Option.{option_map};
ghost use Rattle.std.specs.Str.{bytes_eq};
ghost use Rattle.desk_http_messages.specs.Asked.{asked_of};
ghost use Rattle.desk_http_requests.specs.Calls as calls;
ghost use Rattle.desk_http_requests.specs.Calls.{first_fault};
ghost use Rattle.desk_http_requests.specs.Routes as spec;
ghost use Rattle.desk_http_requests.specs.Routes.{IsRouter, action_in, place_of};

use crate::faults::RequestFault;
use crate::target::path_of;
use desk_http_messages::Request;
use desk_service::FileQuestion;
use matchit::{InsertError, Router};
use std::alloc::{AllocError, Global};

/// How the parameters of a request are read as one of the questions of desk_service.
#[derive(Clone, Copy)]
pub enum Reader {
    Mount,
    Listing,
    Text,
    OfFile(FileQuestion),
    Who,
}

/// What a request is for: a question, which is read so, or an edit.
#[derive(Clone, Copy)]
pub enum Purpose {
    Ask(Reader),
    Put,
}

/// What a method does at a path: the names of its parameters, and what it is for.
#[derive(Clone, Copy)]
pub struct Action {
    pub method: &'static str,
    pub names: &'static [&'static str],
    pub purpose: Purpose,
}

/// A path, and what each method does there.
#[derive(Clone, Copy)]
pub struct Route {
    pub path: &'static str,
    pub actions: &'static [Action],
}

/// The routes, by path.
const ROUTES: &[Route] = &[
    Route {
        path: "/v1/exports",
        actions: &[Action {
            method: "GET",
            names: &["host"],
            purpose: Purpose::Ask(Reader::Listing),
        }],
    },
    Route {
        path: "/v1/file",
        actions: &[
            Action {
                method: "GET",
                names: &["name", "rev"],
                purpose: Purpose::Ask(Reader::Text),
            },
            Action {
                method: "PUT",
                names: &["name", "base"],
                purpose: Purpose::Put,
            },
        ],
    },
    Route {
        path: "/v1/mount",
        actions: &[Action {
            method: "GET",
            names: &["host", "dir", "uid", "gid"],
            purpose: Purpose::Ask(Reader::Mount),
        }],
    },
    Route {
        path: "/v1/proposal",
        actions: &[Action {
            method: "GET",
            names: &["name"],
            purpose: Purpose::Ask(Reader::OfFile(FileQuestion::Proposal)),
        }],
    },
    Route {
        path: "/v1/revisions",
        actions: &[Action {
            method: "GET",
            names: &["name"],
            purpose: Purpose::Ask(Reader::OfFile(FileQuestion::Revisions)),
        }],
    },
    Route {
        path: "/v1/who",
        actions: &[Action {
            method: "GET",
            names: &["dir"],
            purpose: Purpose::Ask(Reader::Who),
        }],
    },
];

/// The paths of the service, each with its place among the routes.
#[derive(Drop)]
pub struct Routes {
    router: Router<usize>,
    ghost finds: { IsRouter router },
}

impl Routes {
    /// Makes the paths of the service.
    pub fn new(alloc: Global) -> Result<Routes, AllocError> {
        match router(alloc) {
            Ok(router) => Ok(Routes { router }),
            Err(_) => Err(AllocError),
        }
    }

    /// Finds the place of a path. Bytes that are not text have none.
    fn find(&self, path: &[u8]) -> Option<usize>
        ensures { result ≡ place_of path.now }
    {
        match std::str::from_utf8(path) {
            Ok(text) => find(&self.router, text),
            Err(_) => None,
        }
    }
}

/// Lends the routes.
fn table() -> &'static [Route]
    ensures { map spec.route_in result.now ≡ spec.routes }
{
    ROUTES
}

/// Makes the router of the service, which finds the place of a path.
fn router(alloc: Global) -> Result<Router<usize>, InsertError>
    ensures { IfOk result IsRouter }
{
    let mut router = Router::new(alloc);
    let routes = table();
    for place in 0..routes.len() {
        router.insert(routes[place].path, place)?;
    }
    Ok(router)
}

/// Finds the place of a path.
fn find(router: &Router<usize>, path: &str) -> Option<usize>
    requires { IsRouter router.now }
    ensures { result ≡ place_of path.now }
{
    match router.at(path) {
        Ok(found) => Some(*found.value),
        Err(_) => None,
    }
}

/// Finds what a method does at the path of a place.
fn action_of_place(method: &[u8], place: usize) -> Option<Action>
    ensures { option_map action_in result ≡ spec.action_of_place method.now place }
{
    match route_at(place) {
        Some(route) => action_of_method(method, route.actions),
        None => None,
    }
}

/// Finds the route of a place.
fn route_at(place: usize) -> Option<Route>
    ensures { option_map spec.route_in result ≡ slice_get spec.routes place }
{
    match table().get(place) {
        Some(route) => Some(*route),
        None => None,
    }
}

/// Finds what a method does among these.
fn action_of_method(method: &[u8], actions: &[Action]) -> Option<Action>
    ensures { result ≡ find (λ action. bytes_eq action.method.now method.now) actions.now }
{
    actions
        .iter()
        .copied()
        .find(|action| action.method.as_bytes() == method)
}

/// Finds what a request does, by its path and method. It takes no memory.
pub fn action_of(routes: &Routes, request: &Request<'_>) -> Result<Action, RequestFault>
    ensures { MatchResult result (λ action. calls.action_of (asked_of request.now) ≡ Some (action_in action))
        (λ fault. first_fault (asked_of request.now) ≡ Some fault) }
{
    let Some(place) = routes.find(path_of(request.target)) else {
        return Err(RequestFault::NoRoute);
    };
    match action_of_place(request.method, place) {
        Some(action) => Ok(action),
        None => Err(RequestFault::BadMethod),
    }
}
