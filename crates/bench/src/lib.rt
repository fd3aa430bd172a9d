// What the programs SHEET and ROUTE say of their input: one line with the number, the place and what is given.
#![tactic(auto)]

ghost use Rattle.std.specs.Prelude.{◌≡◌, ◌++◌, ◌+◌, ◌≤◌, length, drop};
ghost use Rattle.arrayvec.specs.ArrayVec.{array_vec_len};
ghost use Rattle.std.specs.Result.{result_unwrap_or};
ghost use Rattle.judge.specs.Answers.{answer_number, answer_place};
ghost use Rattle.bench.specs.Lines.{answer_fields, line_by, line_of};
ghost use Rattle.bench.specs.Routes.{route_line_by, route_line_of};

use answer::{number_of, place_of};
use judge::Refusal;
use order::read_order;
use part::{behind, first, front};
use sheets::{MOST, length_of};
use text::Line;

mod part;
mod text;

fn put_answer(number: usize, place: usize, line: &mut Line)
    requires { array_vec_len line.old + 42 ≤ 256 }
    ensures { line.new.items ≡ line.old.items ++ answer_fields number place }
{
    text::put_field(number, line);
    text::put_field(place, line);
}

fn line_by(answer: Result<(), Refusal>, sheet: &[u8]) -> Line
    requires { length sheet.now ≤ 33 }
    ensures { result.items ≡ line_by (answer_number answer) (answer_place answer) sheet.now }
{
    let mut line = Line::new();
    put_answer(number_of(answer), place_of(answer), &mut line);
    text::put_last(answer.is_ok(), sheet, &mut line);
    line
}

// Copies the line in front of the lent one and answers its length.
fn write_front<const N: usize>(line: &Line, lent: &mut [u8; N]) -> usize
    requires { array_vec_len line.now ≤ N }
    ensures value { result ≡ length line.now.items }
    ensures lent_after { lent.new ≡ line.now.items ++ drop (length line.now.items) lent.old }
{
    let bytes = line.as_slice();
    lent[..bytes.len()].copy_from_slice(bytes);
    bytes.len()
}

// Writes the line of an input of SHEET in front of the lent one and answers its length: memory is lent, and a String would be of the heap.
pub fn line_of(input: &[u8], line: &mut [u8; 128]) -> usize
    ensures value { result ≡ length (line_of input.now) }
    ensures line_after { line.new ≡ line_of input.now ++ drop (length (line_of input.now)) line.old }
{
    let order = front(input, 24);
    let vehicles = behind(front(input, 4848), 24);
    let mut sheet = [0u8; MOST];
    let answer = judge::sheet_of_train(vehicles, order, &mut sheet);
    let o = read_order(order);
    let book = o.book;
    let shown = front(&sheet, length_of(book));
    let made = line_by(answer, shown);
    write_front(&made, line)
}

fn route_line_by(route: Result<u8, Refusal>, speeds: &[u8]) -> Line
    requires { length speeds.now ≤ 64 }
    ensures { result.items ≡ route_line_by (answer_number route) (answer_place route) (result_unwrap_or route 0) speeds.now }
{
    let mut line = Line::new();
    put_answer(number_of(route), place_of(route), &mut line);
    text::put_field(usize::from(route.unwrap_or(0)), &mut line);
    text::put_last(route.is_ok(), speeds, &mut line);
    line
}

// Writes the line of an input of ROUTE in front of the lent one and answers its length. Beside `line_of`: a bound `Fn` over arrays `[u8; N]` gets no proof, and they read other inputs.
pub fn route_line_of(input: &[u8], line: &mut [u8; 256]) -> usize
    ensures value { result ≡ length (route_line_of input.now) }
    ensures line_after { line.new ≡ route_line_of input.now ++ drop (length (route_line_of input.now)) line.old }
{
    let n = first(input);
    let orders = front(behind(input, 1), 24 * n);
    let vehicles = front(behind(input, 1 + 24 * n), 4824);
    let mut speeds = [0u8; 64];
    let route = route::route_of_train(vehicles, orders, &mut speeds);
    let shown = front(&speeds, orders.len() / 24);
    let made = route_line_by(route, shown);
    write_front(&made, line)
}
