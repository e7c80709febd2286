//! The fills as text.
use exec_report::{LineForm, step_text};
use gx_base::{Event, Execution, Names, listed};
use line_parts::pieces::{end_line, number, order_words, price, text};
use line_parts::side_letter;
use product_file::Product;

/// A line for each fill; nothing is kept, and nothing comes after the lines.
#[derive(Clone, Copy, Debug, PartialEq, Eq)]
pub struct FillForm;

impl LineForm for FillForm {
    ghost use Rattle.book_print.specs.Printing.{fill_form};

    ghost meanings = { fill_form };

    fn write(&self, event: &Event, names: &Names, into: &mut [u8]) -> usize {
        let Event::Fill {
            order,
            lots,
            price: at_price,
            step,
            trade,
            ..
        } = event
        else {
            return 0;
        };
        let instrument = listed(names, order.instrument);
        let at = number(into, 0, b"", *trade);
        let at = text(into, at, b" ", step_text(*step));
        let at = text(into, at, b" ", instrument.name.bytes());
        let at = text(into, at, b" ", side_letter(order.side));
        let at = number(into, at, b" ", u64::from(*lots));
        let at = price(into, at, b"@", *at_price, instrument.decimals);
        let at = order_words(into, at, names, order);
        end_line(into, at)
    }

    fn keep(&mut self, _event: &Event) {}

    fn keep_execution(&mut self, _execution: &Execution<'_>) {}

    fn note(&mut self, _product: &Product, _frame: &[u8]) {}

    fn write_ending(&self, _live: u64, _into: &mut [u8]) -> usize {
        0
    }
}
