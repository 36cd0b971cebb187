//! Templates are filled, and what comes out goes to subscribers, fast ones and slow ones.
use crate::digest::Digest;
use crate::made::{CYRILLIC, LATIN, Numbers, drawn, push_letters, push_word};
use hip_uses::queue::{Queue, publish_metered};
use hip_uses::template::{Template, Values, fill, parse};
use hipstr::bytes::HipByt;
use hipstr::string::HipStr;
use hipstr::{Backend, Meter, Rc, Unique};
use std::alloc::{AllocError, Global};

/// The names of holes.
const NAMES: &[&str] = &[
    "title",
    "user",
    "date",
    "summary",
    "price",
    "currency",
    "address_of_the_recipient",
    "count",
    "link",
    "footer_with_terms_and_conditions",
];

/// The number of different values, and of texts between holes.
const VALUES: usize = 4000;

const BETWEEN: usize = 4000;

/// The number of pages that are made of a template, of holes that a long one has, and of messages that are sent at a time.
const PAGES: usize = 60;

const HOLES: usize = 4000;

const MESSAGES: usize = 400;

/// The number of messages that may wait for a subscriber.
const LIMIT: usize = 50;

/// A value: half of them of up to 20 bytes, some of up to 2,000.
fn value(alloc: Global, numbers: &mut Numbers) -> Result<String, AllocError> {
    let mut value = String::new(alloc);
    match numbers.below(8) {
        0 => {}
        1 => push_word(&mut value, numbers, CYRILLIC, 20)?,
        2 => {
            let count = numbers.below(2000);
            push_letters(&mut value, numbers, count)?;
        }
        3 => {
            let count = numbers.below(200);
            push_letters(&mut value, numbers, count)?;
        }
        _ => push_word(&mut value, numbers, LATIN, 6)?,
    }
    Ok(value)
}

/// The text between two holes. About one in four has braces that are no hole.
fn between(alloc: Global, numbers: &mut Numbers) -> Result<String, AllocError> {
    let mut text = String::from_str(alloc, "<p>")?;
    for _ in 0..numbers.below(24) {
        push_word(&mut text, numbers, LATIN, 4)?;
        text.push(' ')?;
    }
    text.push_str(if numbers.one_in(4) {
        "{ } </p>\n"
    } else {
        "</p>\n"
    })?;
    Ok(text)
}

/// Two stocks of texts.
#[derive(Drop)]
struct Stocks {
    values: Vec<String>,
    between: Vec<String>,
}

fn make_stocks(alloc: Global, numbers: &mut Numbers) -> Result<Stocks, AllocError> {
    let mut values = Vec::new(alloc);
    for _ in 0..VALUES {
        values.push(value(alloc, numbers)?)?;
    }
    let mut texts = Vec::new(alloc);
    for _ in 0..BETWEEN {
        texts.push(between(alloc, numbers)?)?;
    }
    Ok(Stocks {
        values,
        between: texts,
    })
}

/// A template of so many holes, close together or apart.
fn template(
    alloc: Global,
    numbers: &mut Numbers,
    stocks: &Stocks,
    holes: usize,
    apart: bool,
) -> Result<String, AllocError> {
    let mut text = String::new(alloc);
    for _ in 0..holes {
        if apart {
            text.push_str(drawn(numbers, stocks.between.as_slice()))?;
        }
        text.push_str("{{")?;
        text.push_str(NAMES[numbers.below(NAMES.len())])?;
        text.push_str("}} ")?;
    }
    Ok(text)
}

/// A value for each name.
fn values<'s, B: Backend>(
    alloc: Global,
    numbers: &mut Numbers,
    stocks: &'s Stocks,
) -> Result<Values<'s, B>, AllocError> {
    let mut values = Values::new(alloc);
    for name in NAMES {
        let value = drawn(numbers, stocks.values.as_slice());
        values.set(HipStr::borrowed(*name), HipStr::borrowed(value))?;
    }
    Ok(values)
}

/// A page of a template.
fn page<'s, B: Backend>(
    alloc: Global,
    numbers: &mut Numbers,
    stocks: &'s Stocks,
    template: &Template<'s, B>,
    digest: &mut Digest,
) -> Option<HipStr<'s, B>> {
    let values = values(alloc, numbers, stocks).ok()?;
    let page = fill(alloc, template, &values).ok()?;
    digest.ends(page.as_bytes());
    Some(page)
}

/// A template's number of holes, which are close together or apart, and the number of pages that are made of it.
#[derive(Clone, Copy)]
struct Form {
    holes: usize,
    apart: bool,
    pages: usize,
}

/// Adds the pages of a template.
fn push_pages<'s, B: Backend>(
    alloc: Global,
    numbers: &mut Numbers,
    stocks: &'s Stocks,
    form: Form,
    pages: &mut Vec<HipStr<'s, B>>,
    digest: &mut Digest,
) -> Option<()> {
    let text = template(alloc, numbers, stocks, form.holes, form.apart).ok()?;
    let parsed = parse(alloc, &HipStr::from_string(alloc, text).ok()?).ok()?;
    for _ in 0..form.pages {
        let page = page(alloc, numbers, stocks, &parsed, digest)?;
        pages.push(page).ok()?;
    }
    Some(())
}

/// Many pages of a template, and one of a long one, on either backend.
fn pages<'s, B: Backend>(
    alloc: Global,
    numbers: &mut Numbers,
    stocks: &'s Stocks,
    digest: &mut Digest,
) -> Option<Vec<HipStr<'s, B>>> {
    let holes = 10 + numbers.below(91);
    let short = Form {
        holes,
        apart: true,
        pages: PAGES,
    };
    let long = Form {
        holes: HOLES,
        apart: false,
        pages: 1,
    };
    let mut pages = Vec::new(alloc);
    push_pages(alloc, numbers, stocks, short, &mut pages, digest)?;
    push_pages(alloc, numbers, stocks, long, &mut pages, digest)?;
    Some(pages)
}

/// Takes every message that waits for a subscriber.
fn receive_all(queue: &mut Queue<'_, Rc>, digest: &mut Digest) {
    for _ in 0..LIMIT {
        let Some(message) = queue.receive() else {
            return;
        };
        digest.ends(message.as_slice());
    }
}

/// Sends a message to all subscribers. Every eighth is slow, and receives only once another's queue is full.
fn send<'s>(
    alloc: Global,
    queues: &mut Vec<Queue<'s, Rc>>,
    message: &HipByt<'s, Rc>,
    digest: &mut Digest,
) -> Option<()> {
    let mut meter = Meter::new();
    if publish_metered(alloc, queues, message, &mut meter).is_err() {
        for queue in queues.iter_mut() {
            receive_all(queue, digest);
        }
        publish_metered(alloc, queues, message, &mut meter).ok()?;
    }
    digest.number(u64::try_from(meter.copied()).ok()?);
    for (place, queue) in queues.iter_mut().enumerate() {
        if place % 8 != 7 {
            receive_all(queue, digest);
        }
    }
    Some(())
}

/// Queues for 1 to 100 subscribers.
fn queues<'s>(alloc: Global, numbers: &mut Numbers) -> Option<Vec<Queue<'s, Rc>>> {
    let mut queues = Vec::new(alloc);
    for _ in 0..=numbers.below(100) {
        queues.push(Queue::new(alloc, LIMIT).ok()?).ok()?;
    }
    Some(queues)
}

/// Sends all pages, and short messages.
fn send_all<'s>(
    alloc: Global,
    numbers: &mut Numbers,
    stocks: &'s Stocks,
    pages: Vec<HipStr<'s, Rc>>,
    digest: &mut Digest,
) -> Option<()> {
    let mut queues = queues(alloc, numbers)?;
    for page in pages {
        send(alloc, &mut queues, &page.into_bytes(), digest)?;
    }
    for _ in 0..MESSAGES {
        let value = drawn(numbers, stocks.values.as_slice());
        let message = HipByt::from_slice(alloc, value.as_bytes()).ok()?;
        send(alloc, &mut queues, &message, digest)?;
    }
    Some(())
}

/// Fills many templates, and publishes the pages of those whose owners are shared.
pub(crate) fn publish_all(
    alloc: Global,
    rounds: usize,
    numbers: &mut Numbers,
    digest: &mut Digest,
) -> Option<()> {
    let stocks = make_stocks(alloc, numbers).ok()?;
    for _ in 0..rounds {
        let shared = pages::<Rc>(alloc, numbers, &stocks, digest)?;
        send_all(alloc, numbers, &stocks, shared, digest)?;
        let own = pages::<Unique>(alloc, numbers, &stocks, digest)?;
        digest.number(own.len() as u64);
    }
    Some(())
}
