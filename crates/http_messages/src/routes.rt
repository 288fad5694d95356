//! What a path leads to.
ghost use Rattle.std.specs.Prelude.{◌≡◌, ◌==◌, ◌≤◌, [], length, map};
ghost use Rattle.std.specs.Prelude.{option_map, IfOk, Some, true};
ghost use Rattle.std.specs.List.{list_all};
ghost use Rattle.std.specs.Char.{is_ascii_digit};
ghost use Rattle.std.specs.Str.{bytes_eq};
ghost use Rattle.std.specs.Str.Parse.{digits_value};
ghost use Rattle.matchit.specs.Params.{walk, AllText};
ghost use Rattle.http_messages.specs.Routes as spec;
ghost use Rattle.http_messages.specs.Router.{route_in, with_all_routes, rows_of_table, first_part};

use crate::body_form::Form;
use crate::digits::all_digits;
use crate::table::{Leads, Numbered, TABLE};
use http::Method;
use matchit::{Params, Router};
use office_core::Query;
use std::alloc::{AllocError, Global};

/// What a path leads to.
#[derive(Clone, Copy, Debug)]
pub enum Route<'p> {
    Asks(Query),
    Run,
    Reshelve,
    TakesFile(&'p str),
    TakesForm(Form),
}

/// The table of the routes, in which paths are looked up. One table serves any number of requests.
#[derive(Drop)]
pub struct Routes {
    router: Router<Leads>,
    ghost holds: { router ≡ rows_of_table },
}

/// Whether the text is 1 to 10 digits, the first not 0.
fn is_number(text: &[u8]) -> bool
    ensures is { result ≡ spec.is_number text.now }
    ensures short { result ≡ true → length text.now ≤ 10 }
    ensures digits { result ≡ true → list_all is_ascii_digit text.now ≡ true }
{
    match text {
        [] => false,
        [first, rest @ ..] => {
            *first != b'0' && (first.is_ascii_digit() && (all_digits(rest) && rest.len() <= 9))
        }
    }
}

/// The number that at most ten digits stand for.
fn digits_value(digits: &[u8]) -> u64
    requires short { length digits.now ≤ 10 }
    requires all { list_all is_ascii_digit digits.now ≡ true }
    ensures { result ≡ digits_value 10 digits.now }
{
    let mut value: u64 = 0;
    for digit in digits {
        value = value * 10 + (*digit - b'0') as u64;
    }
    value
}

/// The number that a path ends in, or none if that is not 1 to 10 digits, the first not 0.
fn number_in(text: &[u8]) -> Option<u64>
    ensures { result ≡ spec.number_from_digits text.now }
{
    if is_number(text) {
        Some(digits_value(text))
    } else {
        None
    }
}

/// The question about what has this number.
fn question(asked: Numbered, number: u64) -> Query
    ensures { result ≡ spec.question asked number }
{
    match asked {
        Numbered::Aid => Query::Aid { unit: number },
        Numbered::Page => Query::Page { unit: number },
        Numbered::RunSlip => Query::RunSlip { run: number },
        Numbered::ReaderOrders => Query::ReaderOrders { ticket: number },
        Numbered::Queue => Query::Queue { container: number },
        Numbered::ReaderPermits => Query::ReaderPermits { ticket: number },
    }
}

/// What a path leads to whose pattern's parameter is this, or none if it is not the number that is needed.
fn led_to(to: Leads, parameter: &str) -> Option<Route<'_>>
    ensures { option_map route_in result ≡ spec.leads_to to parameter.now }
{
    match to {
        Leads::Asks(query) => Some(Route::Asks(query)),
        Leads::AsksOf(asked) => match number_in(parameter.as_bytes()) {
            Some(number) => Some(Route::Asks(question(asked, number))),
            None => None,
        },
        Leads::Run => Some(Route::Run),
        Leads::Reshelve => Some(Route::Reshelve),
        Leads::Import => Some(Route::TakesFile(parameter)),
        Leads::TakesForm(form) => Some(Route::TakesForm(form)),
    }
}

/// What the first parameter took, or nothing if there is none.
fn first_of<'p>(params: &Params<'_, 'p>) -> &'p str
    ensures { AllText (walk params.now.pattern.now params.now.text.now params.now.path.now params.now.names.now 0 0)
        → result.now
        ≡ first_part (walk params.now.pattern.now params.now.text.now params.now.path.now params.now.names.now 0 0) }
{
    match params.iter().next() {
        Some((_, part)) => part,
        None => "",
    }
}

/// A router with these patterns.
fn router_of(alloc: Global, lines: &[(&'static str, Leads)]) -> Result<Router<Leads>, AllocError>
    ensures { IfOk result (λ router. router ≡ with_all_routes [] (map (λ line. (line.0.now, line.1)) lines.now)) }
{
    let mut router = Router::new(alloc);
    for line in lines {
        if router.insert(line.0, line.1).is_err() {
            return Err(AllocError);
        }
    }
    Ok(router)
}

impl Routes {
    /// The table of all routes. Fails only for want of memory.
    pub fn new(alloc: Global) -> Result<Routes, AllocError> {
        let router = router_of(alloc, &TABLE)?;
        Ok(Routes { router })
    }

    /// What the path leads to in the router.
    fn lookup<'p>(&self, text: &'p str) -> Option<Route<'p>>
        ensures { option_map route_in result ≡ spec.route_of text.now }
    {
        match self.router.at(text) {
            Ok(found) => led_to(*found.value, first_of(&found.params)),
            Err(_) => None,
        }
    }

    /// What a path leads to. None if no route has such a path, it is not UTF-8, or a number in it is not 1 to 10
    /// digits, the first not 0.
    pub fn route_of<'p>(&self, path: &'p [u8]) -> Option<Route<'p>>
        ensures { option_map route_in result ≡ spec.route_of path.now }
    {
        match str::from_utf8(path) {
            Ok(text) => self.lookup(text),
            Err(_) => None,
        }
    }
}

/// Whether the route is for POST, and not for GET.
pub fn is_post(route: Route<'_>) -> bool
    ensures { result ≡ spec.is_post (route_in route.entry) }
{
    match route {
        Route::Asks(_) => false,
        Route::Run => true,
        Route::Reshelve => true,
        Route::TakesFile(_) => true,
        Route::TakesForm(_) => true,
    }
}

/// The method POST if `post` is true, and otherwise GET.
pub fn method_for(post: bool) -> Method
    ensures { result ≡ spec.method_name post }
{
    if post { Method::POST } else { Method::GET }
}

/// Whether a request's method is POST if `post` is true, or GET otherwise. Case matters.
pub fn is_method(method: &[u8], post: bool) -> bool
    ensures { result ≡ bytes_eq method.now (spec.method_name post) }
{
    method == method_for(post).as_str().as_bytes()
}
